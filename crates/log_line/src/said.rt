//! What the kernel's FireWire drivers say of a reset themselves.
ghost use Rattle.std.specs.Prelude.{◌≡◌, ◌∷◌, IfOk, MatchOption, None, Some};
ghost use Rattle.log_line.specs.Lists.{spaced};
ghost use Rattle.log_line.specs.Said.{is_driver, is_record, are_words, is_of_topology, is_of_packets, said_behind};

use crate::word::Word;
use std::alloc::{AllocError, Global};
use std::marker::Model;

/// Bytes of a log. In a contract they are the list of them.
#[derive(Debug, Drop)]
pub struct LogText {
    bytes: Vec<u8>,
}

impl Model for LogText {
    ghost use Rattle.std.specs.Prelude.{List, ℕ};

    ghost Value = { List ℕ };

    ghost view = { λ t. t.bytes.items };
}

impl LogText {
    fn new(bytes: Vec<u8>) -> LogText
        ensures { result ≡ bytes.items }
    {
        LogText { bytes }
    }

    /// The bytes.
    pub fn as_slice(&self) -> &[u8]
        ensures { result.now ≡ self.now }
    {
        self.bytes.as_slice()
    }
}

/// Whether a word is a driver's name behind what /dev/kmsg has before it.
pub(crate) fn is_record(word: &Word) -> bool
    ensures { result ≡ is_record word.now }
{
    word.ends(b";firewire_core") || word.ends(b";firewire_ohci")
}

/// Whether a word is a driver's name: alone, behind what /dev/kmsg has before it, or behind the name of
/// a journal's field.
pub(crate) fn is_driver(word: &Word) -> bool
    ensures { result ≡ is_driver word.now }
{
    word.is(b"firewire_core")
        || word.is(b"firewire_ohci")
        || is_record(word)
        || word.is(b"MESSAGE=firewire_core")
        || word.is(b"MESSAGE=firewire_ohci")
}

fn are_words(a: &Word, b: &Word, first: &[u8], second: &[u8]) -> bool
    ensures { result ≡ are_words a.now b.now first.now second.now }
{
    a.is(first) && b.is(second)
}

/// Whether these words begin what is said of a topology.
fn is_of_topology(a: &Word, b: &Word) -> bool
    ensures { result ≡ is_of_topology a.now b.now }
{
    are_words(a, b, b"topology", b"build")
        || are_words(a, b, b"topology", b"stack")
        || are_words(a, b, b"inconsistent", b"extended")
        || are_words(a, b, b"PHY", b"ID")
        || are_words(a, b, b"parent", b"port")
}

/// Whether these words begin what is said of packets that came or are sent.
fn is_of_packets(a: &Word, b: &Word) -> bool
    ensures { result ≡ is_of_packets a.now b.now }
{
    are_words(a, b, b"bad", b"self")
        || are_words(a, b, b"self", b"ID")
        || are_words(a, b, b"new", b"bus")
        || are_words(a, b, b"phy", b"config:")
}

/// A word and the words behind it, each behind a blank.
fn joined(alloc: Global, first: &Word, words: &[Word]) -> Result<LogText, AllocError>
    ensures { IfOk result (λ text. text ≡ spaced first.now words.now) }
{
    let mut text = Vec::from_slice(alloc, first.as_bytes())?;
    let mut rest = words;
    while let [word, behind @ ..] = rest {
        text.push(b' ')?;
        text.extend_from_slice(word.as_bytes())?;
        rest = behind;
    }
    Ok(LogText::new(text))
}

/// What is said behind a driver's name.
pub(crate) fn said_behind(alloc: Global, words: &[Word]) -> Result<Option<LogText>, AllocError>
    ensures { IfOk result (λ text. text ≡ said_behind words.now) }
{
    let [device, rest @ ..] = words else {
        return Ok(None);
    };
    let [a, b, ..] = rest else {
        return Ok(None);
    };
    if is_of_topology(a, b) || is_of_packets(a, b) {
        let text = joined(alloc, device, rest)?;
        return Ok(Some(text));
    }
    Ok(None)
}
