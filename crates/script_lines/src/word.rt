//! A word of a line.
ghost use Rattle.std.specs.Prelude.{◌≡◌, ◌≤◌, IfOk, IsTrue, ◌↔◌};
ghost use Rattle.std.specs.Str.{bytes_eq};
ghost use Rattle.std.specs.Result.{result_err};
ghost use Rattle.script_lines.specs.Number.{number_of};
ghost use Rattle.script_lines.specs.Shape.{wrong_name, wrong_number};

use crate::kind::Kind;
use crate::number::number_of;
use std::marker::Model;
use topology_stack::Name;

/// A word of a line. In a contract it is the list of its bytes.
#[derive(Debug, Default, Drop)]
pub(crate) struct Word<'a> {
    bytes: &'a [u8],
}

impl<'a> Model for Word<'a> {
    ghost use Rattle.std.specs.Prelude.{List, ℕ};

    ghost Value = { List ℕ };

    ghost view = { λ w. w.bytes.now };
}

impl<'a> Word<'a> {
    pub(crate) fn new(bytes: &'a [u8]) -> Word<'a>
        ensures { result ≡ bytes.now }
    {
        Word { bytes }
    }

    /// The characters of the word.
    pub(crate) fn as_bytes(&self) -> &'a [u8]
        ensures { result.now ≡ self.now }
    {
        self.bytes
    }

    /// Whether this is the word.
    pub(crate) fn is(&self, text: &[u8]) -> bool
        ensures same { IsTrue result ↔ (self.now ≡ text.now) }
        ensures value { result ≡ bytes_eq self.now text.now }
    {
        self.bytes == text
    }

    /// The name that the word is.
    pub(crate) fn name(&self) -> Result<Name, Kind>
        ensures fault { result_err result ≡ wrong_name self.now }
        ensures value { IfOk result (λ name. name ≡ self.now) }
    {
        Name::new(self.bytes).ok_or(Kind::Name)
    }

    /// The number that the word spells, which may be any.
    pub(crate) fn any_number(&self) -> Result<u32, Kind>
        ensures fault { result_err result ≡ wrong_number 0 4294967295 self.now }
        ensures value { IfOk result (λ n. number_of self.now ≡ Some n) }
    {
        number_of(self.bytes).ok_or(Kind::Number)
    }

    /// The number that the word spells, which has to lie in this range.
    pub(crate) fn number(&self, least: u32, most: u32) -> Result<u32, Kind>
        ensures fault { result_err result ≡ wrong_number least most self.now }
        ensures value { IfOk result (λ n. number_of self.now ≡ Some n) }
        ensures least { IfOk result (λ n. least ≤ n) }
        ensures most { IfOk result (λ n. n ≤ most) }
    {
        let number = number_of(self.bytes).ok_or(Kind::Number)?;
        if (least..=most).contains(&number) {
            Ok(number)
        } else {
            Err(Kind::Range)
        }
    }
}
