//! The words of a line.
ghost use Rattle.std.specs.Prelude.{◌≡◌, ℕ, ◌+◌, ◌<◌, ◌≤◌, List, [], ◌∷◌, ◌++◌, Option, length, drop, decimal, IfSome, IsSome, IsSomeAnd};
ghost use Rattle.std.specs.List.{prefix_len, slice_range};
ghost use Rattle.std.specs.Char.{is_ascii_digit};
ghost use Rattle.topology_stack.specs.Hex.{hex, hex_digit};
ghost use Rattle.topology_stack.specs.Name.{IsName};
ghost use Rattle.trace_event.specs.declared.event.Part.{Part};
ghost use Rattle.trace_event.specs.Stands.{Stands, bytes_of, IsNameIn};
ghost use Rattle.trace_event.specs.Event.{numbered, choice, name_word, end_words, port_words, IsShort};
ghost use Rattle.trace_event.specs.codings.Follows.{EndsNumber, is_inner, EndsName};

use crate::event::Part;
use itoa::Buffer;
use topology_stack::Name;

/// A number, and the place behind it.
#[derive(Clone, Copy)]
pub(crate) struct NumberRead {
    pub(crate) value: u32,
    pub(crate) next: usize,
}

/// A name, and the place behind it.
#[derive(Clone, Copy)]
pub(crate) struct NameRead {
    pub(crate) name: Part,
    pub(crate) next: usize,
}

/// A name, a number, and the place behind them.
#[derive(Clone, Copy)]
pub(crate) struct EndRead {
    pub(crate) name: Part,
    pub(crate) port: u32,
    pub(crate) next: usize,
}

/// A number or none, and the place behind it.
#[derive(Clone, Copy)]
pub(crate) struct ChoiceRead {
    pub(crate) choice: Option<u32>,
    pub(crate) next: usize,
}

/// The place behind a word that stands at a place.
pub(crate) fn word_at(text: &[u8], at: usize, word: &[u8]) -> Option<usize>
    ensures found { IfSome result (λ next. Stands text.now at word.now next) }
    ensures only { (w : List ℕ) (next : ℕ) → Stands text.now at (word.now ++ w) next →
        IsSomeAnd result (λ place. Stands text.now place w next) }
{
    if at > text.len() || text.len() - at < word.len() {
        return None;
    }
    let next = at + word.len();
    if &text[at..next] != word {
        return None;
    }
    Some(next)
}

/// The place behind the digits at a place.
fn digits_end(text: &[u8], at: usize) -> usize
    requires { at ≤ length text.now }
    ensures from { at ≤ result }
    ensures inside { result ≤ length text.now }
    ensures value { result ≡ at + prefix_len is_ascii_digit (drop at text.now) }
{
    for next in at..text.len() {
        if !text[next].is_ascii_digit() {
            return next;
        }
    }
    text.len()
}

/// The number of which these bytes are the decimal digits.
fn number_in(digits: &[u8]) -> Option<u32>
    ensures found { IfSome result (λ n. decimal n ≡ digits.now) }
    ensures only { (n : ℕ) → n < 4294967296 → digits.now ≡ decimal n → IsSome result }
{
    let Ok(word) = str::from_utf8(digits) else {
        return None;
    };
    let Ok(number) = word.parse::<u32>() else {
        return None;
    };
    let mut buffer = Buffer::new();
    if buffer.format(number).as_bytes() != digits {
        return None;
    }
    Some(number)
}

/// The number whose decimal digits stand at a place.
fn digits_at(text: &[u8], at: usize) -> Option<NumberRead>
    ensures found { IfSome result (λ r. Stands text.now at (decimal r.value) r.next) }
    ensures only { (n : ℕ) (w : List ℕ) (next : ℕ) → Stands text.now at (decimal n ++ w) next →
        n < 4294967296 → EndsNumber w → IsSomeAnd result (λ r. Stands text.now r.next w next) }
{
    if at > text.len() {
        return None;
    }
    let next = digits_end(text, at);
    let value = number_in(&text[at..next])?;
    Some(NumberRead { value, next })
}

/// The number behind a word.
#[tactic(auto, using(crate::proofs::Chain::both))]
pub(crate) fn number_at(text: &[u8], at: usize, word: &[u8]) -> Option<NumberRead>
    ensures found { IfSome result (λ r. Stands text.now at (numbered word.now r.value) r.next) }
    ensures only { (n : ℕ) (w : List ℕ) (next : ℕ) →
        Stands text.now at (numbered word.now n ++ w) next → n < 4294967296 → EndsNumber w →
        IsSomeAnd result (λ r. Stands text.now r.next w next) }
{
    let behind = word_at(text, at, word)?;
    let number = digits_at(text, behind)?;
    Some(number)
}

/// The place of the next space or line feed.
fn name_end(text: &[u8], at: usize) -> usize
    requires { at ≤ length text.now }
    ensures from { at ≤ result }
    ensures inside { result ≤ length text.now }
    ensures value { result ≡ at + prefix_len is_inner (drop at text.now) }
{
    for next in at..text.len() {
        if text[next] == b' ' || text[next] == b'\n' {
            return next;
        }
    }
    text.len()
}

/// The part of a text from one place to another, if it is a name.
fn name_between(text: &[u8], start: usize, next: usize) -> Option<Part>
    requires start { start ≤ next }
    requires next { next ≤ length text.now }
    ensures named { IfSome result (λ p. IsNameIn text.now p) }
    ensures stands { IfSome result (λ p. Stands text.now start (bytes_of text.now p) next) }
    ensures only { IsName (slice_range text.now start next) → IsSome result }
{
    let _name = Name::new(&text[start..next])?;
    Some(Part {
        start,
        len: next - start,
    })
}

/// The name behind a space.
#[tactic(auto, using(crate::proofs::Chain::both))]
pub(crate) fn name_at(text: &[u8], at: usize) -> Option<NameRead>
    ensures stands { IfSome result (λ r. Stands text.now at (name_word text.now r.name) r.next) }
    ensures named { IfSome result (λ r. IsNameIn text.now r.name) }
    ensures only { (p : Part) (w : List ℕ) (next : ℕ) →
        Stands text.now at (name_word text.now p ++ w) next → IsNameIn text.now p → EndsName w →
        IsSomeAnd result (λ r. Stands text.now r.next w next) }
{
    let start = word_at(text, at, b" ")?;
    let next = name_end(text, start);
    let name = name_between(text, start, next)?;
    Some(NameRead { name, next })
}

/// The name behind a space, and the number behind a word.
#[tactic(auto, using(crate::proofs::Chain::both))]
fn port_behind(text: &[u8], at: usize, word: &[u8]) -> Option<EndRead>
    ensures stands { IfSome result (λ r. Stands text.now at
        (name_word text.now r.name ++ numbered word.now r.port) r.next) }
    ensures named { IfSome result (λ r. IsNameIn text.now r.name) }
    ensures only { (p : Part) (n : ℕ) (w : List ℕ) (next : ℕ) →
        Stands text.now at ((name_word text.now p ++ numbered word.now n) ++ w) next →
        IsNameIn text.now p → n < 4294967296 → EndsName word.now → EndsNumber w →
        IsSomeAnd result (λ r. Stands text.now r.next w next) }
{
    let name = name_at(text, at)?;
    let port = number_at(text, name.next, word)?;
    Some(EndRead {
        name: name.name,
        port: port.value,
        next: port.next,
    })
}

/// ` NAME PORT`.
pub(crate) fn end_at(text: &[u8], at: usize) -> Option<EndRead>
    ensures stands { IfSome result (λ r. Stands text.now at (end_words text.now r.name r.port) r.next) }
    ensures named { IfSome result (λ r. IsNameIn text.now r.name) }
    ensures only { (p : Part) (n : ℕ) (w : List ℕ) (next : ℕ) →
        Stands text.now at (end_words text.now p n ++ w) next → IsNameIn text.now p →
        n < 4294967296 → EndsNumber w → IsSomeAnd result (λ r. Stands text.now r.next w next) }
{
    port_behind(text, at, b" ")
}

/// ` NAME port PORT`.
pub(crate) fn port_at(text: &[u8], at: usize) -> Option<EndRead>
    ensures stands { IfSome result (λ r. Stands text.now at (port_words text.now r.name r.port) r.next) }
    ensures named { IfSome result (λ r. IsNameIn text.now r.name) }
    ensures only { (p : Part) (n : ℕ) (w : List ℕ) (next : ℕ) →
        Stands text.now at (port_words text.now p n ++ w) next → IsNameIn text.now p →
        n < 4294967296 → EndsNumber w → IsSomeAnd result (λ r. Stands text.now r.next w next) }
{
    port_behind(text, at, b" port ")
}

/// ` N`, or ` -` for none.
#[tactic(auto, using(crate::proofs::Chain::both))]
pub(crate) fn choice_at(text: &[u8], at: usize) -> Option<ChoiceRead>
    ensures found { IfSome result (λ r. Stands text.now at (choice r.choice) r.next) }
    ensures only { (o : Option ℕ) (w : List ℕ) (next : ℕ) →
        Stands text.now at (choice o ++ w) next → IsShort o → EndsNumber w →
        IsSomeAnd result (λ r. Stands text.now r.next w next) }
{
    if let Some(next) = word_at(text, at, b" -") {
        return Some(ChoiceRead { choice: None, next });
    }
    let number = number_at(text, at, b" ")?;
    Some(ChoiceRead {
        choice: Some(number.value),
        next: number.next,
    })
}

/// The value of the hexadecimal digit, in lower case, that stands at a place.
fn hex_digit_at(text: &[u8], at: usize) -> Option<u32>
    ensures few { IfSome result (λ d. d < 16) }
    ensures found { IfSome result (λ d. Stands text.now at (hex_digit d ∷ []) (at + 1)) }
    ensures only { (d : ℕ) (w : List ℕ) (next : ℕ) → d < 16 →
        Stands text.now at (hex_digit d ∷ w) next → IsSome result }
{
    if at >= text.len() {
        return None;
    }
    match text[at] {
        c @ b'0'..=b'9' => Some(u32::from(c - b'0')),
        c @ b'a'..=b'f' => Some(u32::from(c - 87)),
        _ => None,
    }
}

/// Eight hexadecimal digits.
pub(crate) fn quad_at(text: &[u8], at: usize) -> Option<NumberRead>
    ensures found { IfSome result (λ r. Stands text.now at (hex 8 r.value) r.next) }
    ensures only { (q : ℕ) (w : List ℕ) (next : ℕ) → Stands text.now at (hex 8 q ++ w) next →
        IsSomeAnd result (λ r. Stands text.now r.next w next) }
{
    if at > text.len() {
        return None;
    }
    let mut value = 0u32;
    let mut next = at;
    for count in 0..8u8 {
        value = 16 * value + hex_digit_at(text, next)?;
        next += 1;
    }
    Some(NumberRead { value, next })
}
