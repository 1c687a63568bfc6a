// The answer as the program prints it: lines of ASCII text.
#![tactic(auto)]

ghost use Rattle.std.specs.Prelude.{◌≡◌, ◌≤◌, ◌/◌, ◌++◌, length};
ghost use Rattle.arrayvec.specs.ArrayString.{array_string_len};
ghost use Rattle.answers.specs.Verdict.{record_size, most_answer};
ghost use Rattle.verdict.specs.Numbers.{verdict_says};
ghost use Rattle.printing.specs.Columns.{with_reasons};
ghost use Rattle.printing.specs.Lines.{text_room, first_line, record_lines};
ghost use Rattle.text.specs.Kept.{Lent};
ghost use Rattle.text.specs.Promises.{PrintsAnswer, PrintsJudged, PrintsLog};

use printing::line::{Columns, first_line, push_records, refusal_line};
use printing::room::Text;
use verdict::answer::Verdict;
use verdict::verdict;
use writing::{MOST_ANSWER, RECORD_SIZE};

// The text of a verdict whose answer records stand in the front of `answer`.
#[tactic(auto, using(crate::proofs::Answers::front_text), unfolding(crate::specs::Text::printed_answer, crate::specs::Text::serial_word, crate::specs::Text::cycle_word))]
pub fn answer_text(verdict: Verdict, answer: &[u8]) -> Text
    requires { Lent (verdict_says verdict) answer.now }
    ensures { PrintsAnswer verdict answer.now result }
{
    match verdict {
        Verdict::Line(n) => {
            records_text("serial", &answer[..n * RECORD_SIZE], Columns::Transaction)
        }
        Verdict::Cycle(n) => {
            records_text("cycle", &answer[..n * RECORD_SIZE], Columns::WithReason)
        }
        Verdict::Refused(why) => {
            let mut text = Text::new();
            text.push_str(refusal_line(why.number(), why.place()).as_str());
            text
        }
    }
}

// The text of a line or a cycle: its word, how many records there are, and a line for each of them.
fn records_text(word: &str, records: &[u8], columns: Columns) -> Text
    requires word { length word.now ≤ 8 }
    requires room { length records.now ≤ most_answer }
    ensures is { result.bytes
        ≡ first_line word.now (length records.now / record_size)
        ++ record_lines (with_reasons columns) records.now (length records.now / record_size) }
    ensures fits { array_string_len result ≤ text_room }
{
    let mut text = Text::new();
    text.push_str(first_line(word, records.len() / RECORD_SIZE).as_str());
    push_records(&mut text, records, columns);
    text
}

// The text of the verdict on a log with the answer buffer that is lent, which takes the answer records.
pub fn judged_text(log: &[u8], answer: &mut [u8]) -> Text
    ensures { PrintsJudged log.now answer.old result answer.new }
{
    let found = verdict(log, answer);
    answer_text(found, answer)
}

// What the program prints for a log: the verdict is given room for any answer.
#[tactic(auto, using(crate::proofs::Answers::program))]
pub fn log_text(log: &[u8]) -> Text
    ensures { PrintsLog log.now result }
{
    let mut answer = [0u8; MOST_ANSWER];
    judged_text(log, &mut answer)
}
