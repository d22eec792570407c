//! Which cable is in a port, by the lines of a script.
ghost use Rattle.std.specs.Prelude.{◌≡◌, ◌≤◌, None, IfOk};
ghost use Rattle.script_words.specs.Cables.{end_at, is_same, is_far, plugged, pulled, far_behind, far_end};

use crate::before::words_in;
use crate::text::{Text, same, word_at};
use script_lines::number_of;
use std::alloc::Global;
use std::marker::Model;
use topology_stack::OutOfMemory;

/// An end of a cable. In a contract it is the name of its node, and the number of its port.
#[derive(Debug, Drop)]
pub(crate) struct CableEnd<'a> {
    pub name: &'a [u8],
    pub port: u32,
}

impl<'a> Model for CableEnd<'a> {
    ghost use Rattle.script_words.specs.Cables.{End};

    ghost Value = { End };

    ghost view = { λ e. (e.name.now, e.port) };
}

impl<'a> CableEnd<'a> {
    /// The end that the words of a line name at a place, counted from 0, and behind it.
    pub(crate) fn at(words: &[Text<'a>], place: usize) -> CableEnd<'a>
        requires { place ≤ 3 }
        ensures { result ≡ end_at words.now place }
    {
        CableEnd {
            name: word_at(words, place),
            port: number_of(word_at(words, place + 1)).unwrap_or(0),
        }
    }

    fn is(&self, other: &CableEnd) -> bool
        ensures { result ≡ is_same self.now other.now }
    {
        same(self.name, other.name) && self.port == other.port
    }

    fn is_far(&self, far: &Option<CableEnd>) -> bool
        ensures { result ≡ is_far self.now far.now }
    {
        match far {
            None => false,
            Some(far) => self.is(far),
        }
    }
}

/// The far end of the cable in a port behind a `plug` with these words.
fn plugged<'a>(
    port: &CableEnd,
    far: Option<CableEnd<'a>>,
    words: &[Text<'a>],
) -> Option<CableEnd<'a>>
    ensures { result ≡ plugged port.now far.entry (end_at words.now 1) (end_at words.now 3) }
{
    let one = CableEnd::at(words, 1);
    let other = CableEnd::at(words, 3);
    if port.is(&one) {
        Some(other)
    } else if port.is(&other) {
        Some(one)
    } else {
        far
    }
}

/// The same behind a `pull` with these words.
fn pulled<'a>(
    port: &CableEnd,
    far: Option<CableEnd<'a>>,
    words: &[Text<'a>],
) -> Option<CableEnd<'a>>
    ensures { result ≡ pulled port.now far.entry (end_at words.now 1) }
{
    let end = CableEnd::at(words, 1);
    if port.is(&end) || end.is_far(&far) {
        None
    } else {
        far
    }
}

/// The same behind a line with these words.
fn far_behind<'a>(
    port: &CableEnd,
    far: Option<CableEnd<'a>>,
    words: &[Text<'a>],
) -> Option<CableEnd<'a>>
    ensures { result ≡ far_behind port.now far.entry words.now }
{
    if same(word_at(words, 0), b"plug") {
        plugged(port, far, words)
    } else if same(word_at(words, 0), b"pull") {
        pulled(port, far, words)
    } else {
        far
    }
}

/// The far end of the cable that these lines leave in a port.
pub(crate) fn far_end<'a>(
    alloc: Global,
    lines: &[Text<'a>],
    port: &CableEnd,
) -> Result<Option<CableEnd<'a>>, OutOfMemory>
    ensures { IfOk result (λ far. far ≡ far_end port.now None lines.now) }
{
    let mut far = None;
    for line in lines {
        let words = words_in(alloc, line)?;
        far = far_behind(port, far, words.as_slice());
    }
    Ok(far)
}
