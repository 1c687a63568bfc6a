// The program that answers a question about a log: reads the question and the log behind it from standard input, and prints the answer.
//
// `asked_text` says how a question stands in bytes. Of the log it reads one byte past the limit, as the release program does. Where the input
// cannot be read or has no whole question, it says so on standard error and prints no answer. Where the answer cannot be written, it says so
// too, and part of the answer may have been written. Its exit status is 0 in any case.
#![tactic(auto)]

use format::record::MOST_BYTES;
use questions::asked::{HEAD, asked_text};
use reading::{cleared, read_input};

const ROOM: usize = HEAD + MOST_BYTES + 1;

fn main(rt: HostRuntime) {
    let mut input = cleared::<ROOM>();
    prove_eq!(input.len(), 16390); // a question's head has 5 bytes, and the longest log 16384
    match read_input(&mut rt.stdin(), &mut input) {
        Ok(n) => print_answer(&rt, &input[..n]),
        Err(_) => {
            let _ = eprintln!(rt; "ask: cannot read the question");
        }
    }
}

fn print_answer(rt: &(impl Print + Eprint), input: &[u8]) {
    let Some(text) = asked_text(input) else {
        let _ = eprintln!(rt; "ask: the question is not whole");
        return;
    };
    if print!(rt; "{text}").is_err() {
        let _ = eprintln!(rt; "ask: cannot write the answer");
    }
}
