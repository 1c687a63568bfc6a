// What is printed is ASCII text. A text and each of its lines are values of a fixed capacity, so nothing is allocated.
use arrayvec::ArrayString;
use format::record::TRANSACTIONS;

// The most digits that a number of 64 bits has.
const DIGITS: usize = 20;

// The longest line: a refusal's word and its space, two numbers, the space between them and the newline.
pub const LINE: usize = 8 + DIGITS + 1 + DIGITS + 1;

// The longest line of an answer record: two bytes in decimal, the space between them and the newline.
const RECORD_LINE: usize = 3 + 1 + 3 + 1;

// The room that any text fits into: a first line, and a line for each transaction.
pub const TEXT: usize = LINE + TRANSACTIONS * RECORD_LINE;

// One line, whichever it is.
pub type Line = ArrayString<LINE>;

// All the lines of an answer.
pub type Text = ArrayString<TEXT>;
