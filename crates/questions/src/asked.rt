// A question in bytes with its log behind it, and what is printed for it.
ghost use Rattle.questions.specs.Promises.{PrintsAsked};

use crate::line::{edge_text, source_text};
use printing::room::Line;

// The bytes before the log: which question it is, and two numbers of two bytes each.
pub const HEAD: usize = 5;

// The first byte of a question about an edge. Any other asks for a source.
const EDGE: u8 = 1;

// The text of the answer, or none where the question is not whole. Each number has its low byte first.
#[tactic(auto, unfolding(crate::specs::Asked::printed_asked, crate::specs::Asked::number_at))]
pub fn asked_text(input: &[u8]) -> Option<Line>
    ensures { PrintsAsked input.now result }
{
    let (head, log) = input.split_first_chunk::<HEAD>()?;
    let [question, first_low, first_high, second_low, second_high] = *head;
    let first = usize::from(u16::from_le_bytes([first_low, first_high]));
    let second = usize::from(u16::from_le_bytes([second_low, second_high]));
    if question == EDGE {
        Some(edge_text(log, first, second))
    } else {
        Some(source_text(log, first))
    }
}
