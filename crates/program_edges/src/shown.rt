//! Words and names of files as messages show them.

use std::fmt::{self, Display, Formatter, Write};

/// A word or the name of a file, in which control characters are shown by their numbers, as `\u{1b}`. So it
/// stays on its line, and sends nothing to a terminal but what it shows.
#[derive(Clone, Copy, Debug)]
pub struct Shown<'a> {
    name: &'a str,
}

impl<'a> Shown<'a> {
    /// A word or a name to be shown.
    pub fn new(name: &'a str) -> Shown<'a> {
        Shown { name }
    }
}

impl Display for Shown<'_> {
    fn fmt<W: Write>(&self, f: &mut Formatter<W>) -> fmt::Result {
        for letter in self.name.chars() {
            if letter.is_control() {
                let number = u32::from(letter);
                write!(f, "\\u{{{number:x}}}")?;
            } else {
                f.write_char(letter)?;
            }
        }
        Ok(())
    }
}
