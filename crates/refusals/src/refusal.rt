// Refusals, with a case for each number of document 01. A check answers `Ok(())`, or the refusal that applies.
ghost use Rattle.std.specs.Prelude.{◌≡◌};
ghost use Rattle.refusals.specs.Numbers.{number_of, place_of};

// The cases that are found at a record carry its place.
#[derive(Clone, Copy, Debug, PartialEq, Eq)]
pub enum Refusal {
    TooLong,
    Ragged,
    ShortBuffer,
    BadKind(usize),
    OutOfRange(usize),
    AfterCommit(usize),
    ReadsUnwritten(usize),
    ReadsPastOwn(usize),
    NeverCommits(usize),
    BadQuestion,
}

impl Refusal {
    // Its number in document 01's table.
    pub fn number(self) -> u64
        ensures { result ≡ number_of self }
    {
        match self {
            Refusal::TooLong => 1,
            Refusal::Ragged => 2,
            Refusal::ShortBuffer => 3,
            Refusal::BadKind(_) => 4,
            Refusal::OutOfRange(_) => 5,
            Refusal::AfterCommit(_) => 6,
            Refusal::ReadsUnwritten(_) => 7,
            Refusal::ReadsPastOwn(_) => 8,
            Refusal::NeverCommits(_) => 9,
            Refusal::BadQuestion => 10,
        }
    }

    // Its place: the record's, or 0 for the numbers that are about no record.
    pub fn place(self) -> usize
        ensures { result ≡ place_of self }
    {
        match self {
            Refusal::TooLong | Refusal::Ragged | Refusal::ShortBuffer | Refusal::BadQuestion => 0,
            Refusal::BadKind(k)
            | Refusal::OutOfRange(k)
            | Refusal::AfterCommit(k)
            | Refusal::ReadsUnwritten(k)
            | Refusal::ReadsPastOwn(k)
            | Refusal::NeverCommits(k) => k,
        }
    }
}
