// The answers to the two questions as they are printed: one line each.
ghost use Rattle.questions.specs.Promises.{PrintsSource, PrintsEdge};

use checked_log::source::source_of_record;
use edges::graph::edge_between;
use printing::line::{numbers_line, refusal_line};
use printing::room::Line;
use writing::reason_byte;

// The source of record k: the transaction and the place of the write that it reads; none for a write or a commit; or a refusal.
#[tactic(auto, unfolding(crate::specs::Text::printed_source, crate::specs::Text::source_line, crate::specs::Text::none_word, printing::specs::Lines::newline))]
pub fn source_text(log: &[u8], k: usize) -> Line
    ensures { PrintsSource log.now k result }
{
    match source_of_record(log, k) {
        Ok(Some(source)) => numbers_line(source.transaction as u64, Some(source.place as u64)),
        Ok(None) => {
            let mut line = Line::new();
            line.push_str("none\n");
            line
        }
        Err(why) => refusal_line(why.number(), why.place()),
    }
}

// The edge from i to j: its reason, 0 where there is none, or a refusal.
#[tactic(auto, unfolding(crate::specs::Text::printed_edge, crate::specs::Text::edge_line))]
pub fn edge_text(log: &[u8], i: usize, j: usize) -> Line
    ensures { PrintsEdge log.now i j result }
{
    match edge_between(log, i, j) {
        Ok(reason) => numbers_line(reason_byte(reason).into(), None),
        Err(why) => refusal_line(why.number(), why.place()),
    }
}
