// Text: the bytes that part fields and close lines, and writers of bytes into a lent output from a place on.
// Outside of the output nothing is stored. The place is a parameter beside the output: a struct of both would have to say in each contract
// that it still holds the same output.
#![tactic(auto)]

pub mod bytes;
pub mod decimal;

// The bytes between two fields and at the end of a line (document 01, "fields in a fixed order parted by commas, .. closed by byte 10").
pub const COMMA: u8 = 44;

pub const LINE_END: u8 = 10;

// The byte of the digit 0.
pub const DIGIT_ZERO: u8 = 48;
