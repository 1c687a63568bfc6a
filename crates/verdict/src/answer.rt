// The verdict's answer.
use refusals::refusal::Refusal;

// A serial line or a cycle, with the number of its members, whose records are in the buffer that was lent; or a refusal.
#[derive(Clone, Copy, Debug, PartialEq, Eq)]
pub enum Verdict {
    Line(usize),
    Cycle(usize),
    Refused(Refusal),
}
