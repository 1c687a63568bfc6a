// The C face of the checker: exports on byte slices, tables and plain numbers, thin over the crates below. include/fruscalenta.h declares
// them.
#![tactic(auto)]

ghost use Rattle.std.specs.Prelude.{◌≡◌};
ghost use Rattle.refusals.specs.Numbers.{number_of, place_of, checked_says};
ghost use Rattle.checked_log.specs.Numbers.{source_says};
ghost use Rattle.edges.specs.Numbers.{edge_says};
ghost use Rattle.sort.specs.Numbers.{sorted_says};
ghost use Rattle.verdict.specs.Numbers.{verdict_says};
ghost use Rattle.clib.specs.Coding.{coded_refusal, coded, passed_value, reason_value, coded_source, coded_sorted, coded_verdict};
ghost use Rattle.clib.specs.Promises.{ChecksInC, TellsSourceInC, TellsEdgeInC, SortsInC, JudgesInC};

use checked_log::check::check;
use checked_log::source::Source;
use format::record::MOST_RECORDS;
use refusals::refusal::Refusal;
use sets::{NUMBERS, Set};
use sort::{Sorted, sort};
use tables::reasons::Reason;
use verdict::answer::Verdict;
use verdict::{edge_between, source_of_record, verdict};
use writing::reason_byte;

// An answer in numbers: the refusal's number and place, or number 0 and then the value. `struct fruscalenta_answer` of the header.
#[repr(C)]
#[derive(Clone, Copy)]
pub struct Coded {
    pub number: u64,
    pub place: u64,
    pub value: u64,
}

// A source in numbers: the refusal's number and place, or number 0 and then the transaction and the place of its write record, or NONE in
// both. `struct fruscalenta_source` of the header.
#[repr(C)]
#[derive(Clone, Copy)]
pub struct CodedSource {
    pub number: u64,
    pub place: u64,
    pub transaction: u64,
    pub record: u64,
}

// A line or a cycle in numbers: whether it is a cycle, 1 or 0, and how many members it has. `struct fruscalenta_sorted` of the header.
#[repr(C)]
#[derive(Clone, Copy)]
pub struct CodedSorted {
    pub cycle: u64,
    pub length: u64,
}

// A verdict in numbers: the refusal's number and place, or number 0 and then whether it is a cycle, 1 or 0, and how many members it has.
// `struct fruscalenta_judged` of the header.
#[repr(C)]
#[derive(Clone, Copy)]
pub struct CodedVerdict {
    pub number: u64,
    pub place: u64,
    pub cycle: u64,
    pub length: u64,
}

// The number that stands for "none": one past the highest place of a record, and so above every transaction too.
pub const NONE: u64 = MOST_RECORDS as u64;

// A caller of `into` knows what `from_gives` says.
impl From<Refusal> for Coded {
    ghost from_gives = { λ r numbers. numbers ≡ coded_refusal (number_of r) (place_of r) };

    fn from(r: Refusal) -> Coded
        ensures { result ≡ coded_refusal (number_of r) (place_of r) }
    {
        Coded {
            number: r.number(),
            place: r.place() as u64,
            value: 0,
        }
    }
}

// The answer of a check: the value is 0 where the log passes.
impl From<Result<(), Refusal>> for Coded {
    ghost from_gives = { λ answer numbers. numbers ≡ coded passed_value (checked_says answer) };

    fn from(answer: Result<(), Refusal>) -> Coded
        ensures { result ≡ coded passed_value (checked_says answer) }
    {
        match answer {
            Ok(()) => Coded {
                number: 0,
                place: 0,
                value: 0,
            },
            Err(r) => r.into(),
        }
    }
}

// The answer to the question about an edge: the value is its reason, 0 where there is none.
impl From<Result<Option<Reason>, Refusal>> for Coded {
    ghost from_gives = { λ answer numbers. numbers ≡ coded reason_value (edge_says answer) };

    fn from(answer: Result<Option<Reason>, Refusal>) -> Coded
        ensures { result ≡ coded reason_value (edge_says answer) }
    {
        match answer {
            Ok(reason) => Coded {
                number: 0,
                place: 0,
                value: u64::from(reason_byte(reason)),
            },
            Err(r) => r.into(),
        }
    }
}

impl From<Result<Option<Source>, Refusal>> for CodedSource {
    ghost from_gives = { λ answer numbers. numbers ≡ coded_source (source_says answer) };

    fn from(answer: Result<Option<Source>, Refusal>) -> CodedSource
        ensures { result ≡ coded_source (source_says answer) }
    {
        match answer {
            Ok(Some(source)) => CodedSource {
                number: 0,
                place: 0,
                transaction: source.transaction as u64,
                record: source.place as u64,
            },
            Ok(None) => CodedSource {
                number: 0,
                place: 0,
                transaction: NONE,
                record: NONE,
            },
            Err(r) => CodedSource {
                number: r.number(),
                place: r.place() as u64,
                transaction: 0,
                record: 0,
            },
        }
    }
}

impl From<Sorted> for CodedSorted {
    ghost from_gives = { λ sorted numbers. numbers ≡ coded_sorted (sorted_says sorted) };

    fn from(sorted: Sorted) -> CodedSorted
        ensures { result ≡ coded_sorted (sorted_says sorted) }
    {
        match sorted {
            Sorted::Line(n) => CodedSorted {
                cycle: 0,
                length: n as u64,
            },
            Sorted::Cycle(n) => CodedSorted {
                cycle: 1,
                length: n as u64,
            },
        }
    }
}

impl From<Verdict> for CodedVerdict {
    ghost from_gives = { λ verdict numbers. numbers ≡ coded_verdict (verdict_says verdict) };

    fn from(verdict: Verdict) -> CodedVerdict
        ensures { result ≡ coded_verdict (verdict_says verdict) }
    {
        match verdict {
            Verdict::Line(n) => CodedVerdict {
                number: 0,
                place: 0,
                cycle: 0,
                length: n as u64,
            },
            Verdict::Cycle(n) => CodedVerdict {
                number: 0,
                place: 0,
                cycle: 1,
                length: n as u64,
            },
            Verdict::Refused(r) => CodedVerdict {
                number: r.number(),
                place: r.place() as u64,
                cycle: 0,
                length: 0,
            },
        }
    }
}

// The check of a log. The value is 0 where the log passes.
#[unsafe(no_mangle)]
pub extern "C" fn fruscalenta_check(log: &[u8]) -> Coded
    ensures { ChecksInC log.now result }
{
    check(log).into()
}

// The source of record k: the transaction and the place of the write that it reads, or NONE in both for a write or a commit.
#[unsafe(no_mangle)]
pub extern "C" fn fruscalenta_source_of_record(log: &[u8], k: usize) -> CodedSource
    ensures { TellsSourceInC log.now k result }
{
    source_of_record(log, k).into()
}

// The edge from i to j. The value is its reason, 0 where there is none.
#[unsafe(no_mangle)]
pub extern "C" fn fruscalenta_edge_between(log: &[u8], i: usize, j: usize) -> Coded
    ensures { TellsEdgeInC log.now i j result }
{
    edge_between(log, i, j).into()
}

// The line or the cycle of any table of edges and any set. Its members are written to the front of the buffer; all other bytes keep their
// content. C hands over numbers: each is the set of its bits.
#[unsafe(no_mangle)]
pub extern "C" fn fruscalenta_sort(
    table: &[u64; NUMBERS],
    set: u64,
    members: &mut [u8; NUMBERS],
) -> CodedSorted
    ensures { SortsInC table.now set members.old result members.new }
{
    sort(&sets_of_bits(table), Set::of_bits(set), members).into()
}

// The sets of a table of numbers, each that of the bits of its number. They are copied, so that nothing has to be known of how a set lies in memory.
fn sets_of_bits(table: &[u64; NUMBERS]) -> [Set; NUMBERS]
    ensures { result ≡ table.now }
{
    let mut sets = [Set::EMPTY; NUMBERS];
    for i in 0..NUMBERS {
        sets[i] = Set::of_bits(table[i]);
    }
    sets
}

// The verdict on a log. The answer records of a line or a cycle are written to the front of the buffer; all other bytes keep their content.
#[unsafe(no_mangle)]
pub extern "C" fn fruscalenta_verdict(log: &[u8], answer: &mut [u8]) -> CodedVerdict
    ensures { JudgesInC log.now answer.old result answer.new }
{
    verdict(log, answer).into()
}
