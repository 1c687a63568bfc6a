// The release program: reads a log from standard input, and prints the verdict on it.
//
// It reads one byte past the limit, so that a log that is too long is refused as such and not judged by its front. Where the log cannot be
// read, it says so on standard error and prints no answer. Where the answer cannot be written, it says so too, and part of the answer may have
// been written. Its exit status is 0 in any case.
#![tactic(auto)]

use format::record::MOST_BYTES;
use reading::{cleared, read_input};
use text::log_text;

const ROOM: usize = MOST_BYTES + 1;

fn main(rt: HostRuntime) {
    let mut log = cleared::<ROOM>();
    prove_eq!(log.len(), 16385); // the longest log has 16384 bytes
    match read_input(&mut rt.stdin(), &mut log) {
        Ok(n) => print_answer(&rt, &log[..n]),
        Err(_) => {
            let _ = eprintln!(rt; "logcheck: cannot read the log");
        }
    }
}

fn print_answer(rt: &(impl Print + Eprint), log: &[u8]) {
    let text = log_text(log);
    if print!(rt; "{text}").is_err() {
        let _ = eprintln!(rt; "logcheck: cannot write the answer");
    }
}
