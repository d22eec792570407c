//! The statuses of the program, and the most bytes of its input. What is said of the input holds of the forms that read one.

/// The input was read to its end and is valid, and its whole text was written.
pub const VALID: u8 = 0;

/// The input was read to its end and isn't valid, and the whole line of its fault was written.
pub const REFUSED: u8 = 1;

/// The words are none of the forms. Nothing was read or written.
pub const NO_FORM: u8 = 2;

/// The input could not be read to its end. Nothing was written.
pub const READ_FAULT: u8 = 3;

/// The text or the line could not be written whole. The first of its bytes were written, or none.
pub const WRITE_FAULT: u8 = 4;

/// There was no memory. Nothing was written.
pub const NO_MEMORY: u8 = 5;

/// The input is longer than `MAX_INPUT`. Nothing was written.
pub const TOO_LONG: u8 = 6;

/// The most bytes of an input.
pub const MAX_INPUT: usize = 1_048_576;
