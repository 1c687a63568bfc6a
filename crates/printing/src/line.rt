// The lines of an answer: the first, one for each answer record, and a line of numbers.
ghost use Rattle.std.specs.Prelude.{◌≡◌, ◌+◌, ◌*◌, ◌/◌, ◌≤◌, ◌++◌, length};
ghost use Rattle.arrayvec.specs.ArrayString.{array_string_len};
ghost use Rattle.rules.specs.Record.{transactions};
ghost use Rattle.answers.specs.Verdict.{record_size};
ghost use Rattle.printing.specs.Lines.{text_room, first_room, record_room, decimal, first_line, refusal_line, numbers_line, record_line, record_lines};
ghost use Rattle.printing.specs.Columns.{with_reasons};
ghost use Rattle.printing.specs.Kept.{Put, PutInFront};

use crate::room::{Line, TEXT, Text};
use itoa::Buffer;
use writing::RECORD_SIZE;

// What a record's line shows: of a serial line its transaction, of a cycle the reason behind it too.
#[derive(Clone, Copy)]
pub enum Columns {
    Transaction,
    WithReason,
}

// The line that a line or a cycle begins with: a word and how many members there are.
#[tactic(auto, using(crate::proofs::Decimals::lengths), unfolding(crate::specs::Lines::first_line, crate::specs::Lines::space, crate::specs::Lines::newline))]
pub fn first_line(word: &str, n: usize) -> Line
    requires { length word.now ≤ 8 }
    ensures is { result.bytes ≡ first_line word.now n }
    ensures fits { array_string_len result ≤ first_room }
{
    let mut line = Line::new();
    line.push_str(word);
    line.push_str(" ");
    push_decimal(&mut line, n as u64);
    line.push_str("\n");
    line
}

// The first line for a word of any bytes, where `first_line` takes only text. The line is put into the front of the bytes that are lent, and the
// result is the place behind it.
#[tactic(auto, using(crate::proofs::Decimals::lengths), unfolding(crate::specs::Lines::first_line, crate::specs::Lines::space, crate::specs::Lines::newline))]
pub fn put_first(word: &[u8], n: usize, text: &mut [u8; TEXT]) -> usize
    requires { length word.now ≤ 8 }
    ensures put { PutInFront text.old (first_line word.now n) text.new result }
    ensures fits { result ≤ first_room }
{
    let rest = first_line("", n); // what stands behind the word
    let end = word.len() + rest.len();
    text[..word.len()].copy_from_slice(word);
    text[word.len()..end].copy_from_slice(rest.as_bytes());
    end
}

// The line of a refusal.
#[tactic(auto, using(crate::proofs::Decimals::lengths), unfolding(crate::specs::Lines::refusal_line, crate::specs::Lines::refused_word, crate::specs::Lines::space, crate::specs::Lines::newline))]
pub fn refusal_line(number: u64, place: usize) -> Line
    ensures is { result.bytes ≡ refusal_line number place }
    ensures fits { array_string_len result ≤ first_room }
{
    let mut line = Line::new();
    line.push_str("refused ");
    push_decimal(&mut line, number);
    line.push_str(" ");
    push_decimal(&mut line, place as u64);
    line.push_str("\n");
    line
}

// A line of one number, or of two.
#[tactic(auto, using(crate::proofs::Decimals::lengths), unfolding(crate::specs::Lines::numbers_line, crate::specs::Lines::space, crate::specs::Lines::newline))]
pub fn numbers_line(first: u64, second: Option<u64>) -> Line
    ensures is { result.bytes ≡ numbers_line first second }
    ensures fits { array_string_len result ≤ first_room }
{
    let mut line = Line::new();
    push_decimal(&mut line, first);
    if let Some(second) = second {
        line.push_str(" ");
        push_decimal(&mut line, second);
    }
    line.push_str("\n");
    line
}

// A number in decimal behind what a line has.
#[tactic(auto, using(crate::proofs::Decimals::printed_by_std))]
fn push_decimal(line: &mut Line, n: u64)
    requires { array_string_len line.old + length (decimal n) ≤ first_room }
    ensures { Put line.old (decimal n) line.new }
{
    let mut digits = Buffer::new();
    line.push_str(digits.format(n));
}

// The line of an answer record.
#[tactic(auto, unfolding(crate::specs::Lines::record_line))]
fn record_line(transaction: u8, reason: u8, columns: Columns) -> Line
    ensures { result.bytes ≡ record_line (with_reasons columns) transaction reason }
{
    match columns {
        Columns::Transaction => numbers_line(transaction.into(), None),
        Columns::WithReason => numbers_line(transaction.into(), Some(reason.into())),
    }
}

// The lines of answer records, put behind what a text has.
pub fn push_records(text: &mut Text, records: &[u8], columns: Columns)
    requires { array_string_len text.old + length records.now / record_size * record_room ≤ text_room }
    ensures { Put text.old
        (record_lines (with_reasons columns) records.now (length records.now / record_size)) text.new }
{
    for [transaction, reason] in records.as_chunks::<RECORD_SIZE>().0 {
        text.push_str(record_line(*transaction, *reason, columns).as_str());
    }
}
