// The kinds of a record, and the bytes that stand for them.

#[derive(Clone, Copy, Debug, PartialEq, Eq)]
pub enum Kind {
    Read = 1,
    Write = 2,
    Commit = 3,
}

// The bytes by their names, for a `match` on a byte.
impl Kind {
    pub const READ: u8 = Kind::Read as u8;

    pub const WRITE: u8 = Kind::Write as u8;

    pub const COMMIT: u8 = Kind::Commit as u8;
}
