//! A word of a line.
ghost use Rattle.std.specs.Prelude.{◌≡◌, IsTrue, ◌↔◌, IfSome, ◌-◌, drop, length, position};
ghost use Rattle.std.specs.Option.{option_copied, option_map};
ghost use Rattle.std.specs.Str.{bytes_eq};
ghost use Rattle.log_line.specs.Words.{is_equals, behind, is_of_field};

use std::marker::Model;

/// The place of the first `=` of a text.
fn first_equals(text: &[u8]) -> Option<usize>
    ensures { result ≡ position is_equals text.now }
{
    text.iter().position(|c| *c == b'=')
}

/// A word of a line. In a contract it is the list of its bytes.
#[derive(Debug, Drop)]
pub(crate) struct Word<'a> {
    bytes: &'a [u8],
}

impl<'a> Model for Word<'a> {
    ghost use Rattle.std.specs.Prelude.{List, ℕ};

    ghost Value = { List ℕ };

    ghost view = { λ w. w.bytes.now };
}

impl<'a> Word<'a> {
    pub(crate) fn new(bytes: &'a [u8]) -> Word<'a>
        ensures { result ≡ bytes.now }
    {
        Word { bytes }
    }

    /// The characters of the word.
    pub(crate) fn as_bytes(&self) -> &'a [u8]
        ensures { result.now ≡ self.now }
    {
        self.bytes
    }

    /// Whether this is the word.
    pub(crate) fn is(&self, text: &[u8]) -> bool
        ensures { result ≡ bytes_eq self.now text.now }
    {
        self.bytes == text
    }

    /// Whether the word is of a field: `=` stands in it.
    pub(crate) fn is_of_field(&self) -> bool
        ensures { result ≡ is_of_field self.now }
    {
        first_equals(self.bytes).is_some()
    }

    /// Whether the word ends with this text.
    pub(crate) fn ends(&self, text: &[u8]) -> bool
        ensures { result ≡ bytes_eq (drop (length self.now - length text.now) self.now) text.now }
    {
        self.bytes.ends_with(text)
    }

    /// What stands behind a key, where the word begins with it.
    pub(crate) fn behind(&self, key: &[u8]) -> Option<Word<'a>>
        ensures { result ≡ behind key.now self.now }
    {
        match self.bytes.strip_prefix(key) {
            Some(bytes) => Some(Word { bytes }),
            None => None,
        }
    }
}
