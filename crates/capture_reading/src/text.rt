//! A short text, as the line of a fault is.
ghost use Rattle.std.specs.Prelude.{◌≡◌, ◌+◌, ◌≤◌, [], ◌++◌, length, decimal};

use arrayvec::ArrayVec;
use itoa::Buffer;
use std::marker::Model;

/// The room of a short text, which is more than the longest line or sentence has.
const ROOM: usize = 256;

/// A text of at most 256 bytes. It takes no memory. In a contract it is its bytes.
#[derive(Debug, Drop)]
pub struct ShortText {
    bytes: ArrayVec<u8, ROOM>,
}

impl Model for ShortText {
    ghost use Rattle.std.specs.Prelude.{List, ℕ};

    ghost Value = { List ℕ };

    ghost view = { λ t. t.bytes.items };
}

impl ShortText {
    /// A text without a byte.
    pub fn new() -> ShortText
        ensures { result ≡ [] }
    {
        ShortText {
            bytes: ArrayVec::new(),
        }
    }

    /// The bytes of the text, of a line up to its line feed.
    pub fn as_bytes(&self) -> &[u8]
        ensures { result.now ≡ self.now }
    {
        self.bytes.as_slice()
    }

    /// Appends a text. There is room for 256 bytes in all.
    pub fn put(&mut self, text: &[u8])
        requires { length self.old + length text.now ≤ 256 }
        ensures { self.new ≡ self.old ++ text.now }
    {
        self.bytes.try_extend_from_slice(text).unwrap();
    }

    /// Appends a number in decimal, which has at most 20 digits.
    pub fn put_number(&mut self, n: usize)
        requires { length self.old + 20 ≤ 256 }
        ensures number { self.new ≡ self.old ++ decimal n }
        ensures few { length self.new ≤ length self.old + 20 }
    {
        let mut buffer = Buffer::new();
        self.put(buffer.format(n).as_bytes());
    }
}
