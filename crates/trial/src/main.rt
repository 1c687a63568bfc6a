// A stored stack of logs, run through the library for the gate: each log is judged with an answer buffer of the length that it asks for,
// and the answers are printed as the release program prints them.
//
// The stack stands on standard input. For each log it holds the log's length and the answer buffer's, two bytes each, the low one first,
// and then the log's bytes. Both the stack (crates/trial/stdin) and the answers that the gate holds this program to (crates/trial/stdout) are
// made by the second checker: second/src/bin/trial_stack says how.
#![tactic(auto)]

ghost use Rattle.std.specs.Prelude.{◌≡◌, ◌↔◌, ◌+◌, ◌≤◌, IfSome, IsSome, drop, length, take};
ghost use Rattle.trial.specs.Stack.{header_size, log_size, room_asked};

use reading::{cleared, read_input};
use text::judged_text;

// The longest stack: no more of it is read.
const MOST_STACK: usize = 65536;

// The longest answer buffer that is lent.
const MOST_ROOM: usize = 400;

// A log as it stands in a stack: its bytes, the length of the answer buffer that it asks for, and the stack behind it.
#[derive(Clone, Copy)]
struct Stored<'a> {
    log: &'a [u8],
    room: usize,
    rest: &'a [u8],
}

// Where a read fails, what was read before it is judged.
fn main(rt: HostRuntime) {
    let mut stack = cleared::<MOST_STACK>();
    prove_eq!(stack.len(), 65536); // so much of a stack is read, and a longer one is cut off there
    let n = read_input(&mut rt.stdin(), &mut stack).unwrap_or_else(|failed| failed.count);
    run(&rt, &stack[..n], &mut [0; MOST_ROOM]);
}

// Judges the logs of a stack in turn. They share the answer buffer, so that each finds in it what the one before has left.
fn run(rt: &impl Print, mut stack: &[u8], answer: &mut [u8]) {
    let mut k: u64 = 0;
    'logs: while !stack.is_empty() {
        let Some(stored) = first_log(stack) else {
            let _ = println!(rt; "trial: the stack ends inside log {k}");
            break 'logs;
        };
        let _ = println!(rt; "log {k}");
        let room = stored.room.min(answer.len());
        print_answer(rt, stored.log, &mut answer[..room]);
        stack = stored.rest;
        k += 1;
    }
}

// The first log of a stack and the rest behind it, or `None` where the stack ends inside that log or the two lengths before it.
fn first_log(stack: &[u8]) -> Option<Stored<'_>>
    ensures whole { IsSome result ↔ (header_size + log_size stack.now ≤ length stack.now) }
    ensures log { IfSome result (λ it. it.log.now ≡ take (log_size stack.now) (drop header_size stack.now)) }
    ensures room { IfSome result (λ it. it.room ≡ room_asked stack.now) }
    ensures rest { IfSome result (λ it. it.rest.now ≡ drop (header_size + log_size stack.now) stack.now) }
{
    let (&[a, b, c, d], rest) = stack.split_first_chunk::<4>()?;
    let size = usize::from(u16::from_le_bytes([a, b]));
    let room = usize::from(u16::from_le_bytes([c, d]));
    let (log, rest) = rest.split_at_checked(size)?;
    Some(Stored { log, room, rest })
}

fn print_answer(rt: &impl Print, log: &[u8], answer: &mut [u8]) {
    let text = judged_text(log, answer);
    let _ = print!(rt; "{text}");
}
