//! The parts of a text: the lines of a script, and the words of a line.
ghost use Rattle.std.specs.Prelude.{◌≡◌, ◌<◌, ◌∷◌, [], length, position, slice_index_or, filter, IfOk, IfSome, IfNone, IsTrue, ◌↔◌};
ghost use Rattle.std.specs.List.{slice_split};
ghost use Rattle.std.specs.Str.{bytes_eq};
ghost use Rattle.line_words.specs.Words.{is_some_text};
ghost use Rattle.script_lines.specs.Words.{words_of};
ghost use Rattle.script_lines.specs.Form.{word_at};
ghost use Rattle.script_words.specs.Before.{feed_lines};
ghost use Rattle.script_words.specs.codings.Marks.{is_mark};

use std::alloc::Global;
use std::marker::Model;
use topology_stack::OutOfMemory;

/// A part of a text. In a contract it is the list of its bytes.
#[derive(Debug, Drop)]
pub(crate) struct Text<'a> {
    bytes: &'a [u8],
}

impl<'a> Model for Text<'a> {
    ghost use Rattle.std.specs.Prelude.{List, ℕ};

    ghost Value = { List ℕ };

    ghost view = { λ t. t.bytes.now };
}

impl<'a> Text<'a> {
    pub(crate) fn new(bytes: &'a [u8]) -> Text<'a>
        ensures { result ≡ bytes.now }
    {
        Text { bytes }
    }

    /// The characters of the part.
    pub(crate) fn as_bytes(&self) -> &'a [u8]
        ensures { result.now ≡ self.now }
    {
        self.bytes
    }

    /// Whether these are its characters.
    pub(crate) fn is(&self, text: &[u8]) -> bool
        ensures { result ≡ bytes_eq self.now text.now }
    {
        self.bytes == text
    }
}

/// Whether two texts have the same characters.
pub(crate) fn same(one: &[u8], other: &[u8]) -> bool
    ensures { result ≡ bytes_eq one.now other.now }
{
    one == other
}

/// What stands between parts.
#[derive(Clone, Copy, Debug)]
pub(crate) enum Mark {
    /// A space or a tab.
    Blank,
    /// A line feed.
    Feed,
}

fn is_mark(mark: Mark, c: u8) -> bool
    ensures { result ≡ is_mark mark c }
{
    match mark {
        Mark::Blank => c == b' ' || c == b'\t',
        Mark::Feed => c == b'\n',
    }
}

fn first_mark(text: &[u8], mark: Mark) -> Option<usize>
    ensures value { result ≡ position (is_mark mark) text.now }
    ensures within { IfSome result (λ place. place < length text.now) }
{
    text.iter().position(|c| is_mark(mark, *c))
}

/// What stands before the first mark, and what stands behind it.
fn cut(text: &[u8], mark: Mark) -> Option<(&[u8], &[u8])>
    ensures cut { IfSome result (λ parts. slice_split (is_mark mark) text.now
        ≡ parts.0.now ∷ slice_split (is_mark mark) parts.1.now) }
    ensures shorter { IfSome result (λ parts. length parts.1.now < length text.now) }
    ensures whole { IfNone result (slice_split (is_mark mark) text.now ≡ text.now ∷ []) }
{
    match first_mark(text, mark) {
        Some(end) => Some((&text[..end], &text[end + 1..])),
        None => None,
    }
}

/// The parts of a text.
fn parts_of(alloc: Global, text: &[u8], mark: Mark) -> Result<Vec<Text<'_>>, OutOfMemory>
    ensures { IfOk result (λ parts. parts.items ≡ slice_split (is_mark mark) text.now) }
{
    let mut parts = Vec::new(alloc);
    let mut rest = text;
    while let Some((part, behind)) = cut(rest, mark) {
        parts.push(Text::new(part))?;
        rest = behind;
    }
    parts.push(Text::new(rest))?;
    Ok(parts)
}

/// What stands between the line feeds of a script.
pub(crate) fn lines_of(alloc: Global, script: &[u8]) -> Result<Vec<Text<'_>>, OutOfMemory>
    ensures { IfOk result (λ lines. lines.items ≡ feed_lines script.now) }
{
    parts_of(alloc, script, Mark::Feed)
}

/// The parts that aren't empty.
fn some_of<'a>(alloc: Global, parts: &[Text<'a>]) -> Result<Vec<Text<'a>>, OutOfMemory>
    ensures { IfOk result (λ words. words.items ≡ filter is_some_text parts.now) }
{
    let mut words = Vec::new(alloc);
    for part in parts {
        if !part.as_bytes().is_empty() {
            words.push(Text::new(part.as_bytes()))?;
        }
    }
    Ok(words)
}

/// The words of a line.
#[tactic(auto, unfolding(line_words::specs::Words::words_by))]
pub(crate) fn words_of(alloc: Global, line: &[u8]) -> Result<Vec<Text<'_>>, OutOfMemory>
    ensures { IfOk result (λ words. words.items ≡ words_of line.now) }
{
    let parts = parts_of(alloc, line, Mark::Blank)?;
    some_of(alloc, parts.as_slice())
}

/// The word at a place, counted from 0, or no characters behind the last.
pub(crate) fn word_at<'a>(words: &[Text<'a>], place: usize) -> &'a [u8]
    ensures { result.now ≡ word_at words.now place }
{
    match words.get(place) {
        Some(word) => word.as_bytes(),
        None => &[],
    }
}
