//! What is taken for text, and what of it is read.
ghost use Rattle.std.specs.Prelude.{◌≡◌, ◌<◌, ◌≤◌, length, position, count_by, IfSome};
ghost use Rattle.capture_import.specs.Text.{unmarked, is_text, form_of, container_of, is_open, is_close, within_braces, is_one_list};

use crate::taken::{Container, TextForm};
use crate::words::begins;

/// An input without the mark of three bytes before UTF-8.
pub(crate) fn unmarked(input: &[u8]) -> &[u8]
    ensures { result.now ≡ unmarked input.now }
{
    if input.len() >= 3 && begins(&[0xEF, 0xBB, 0xBF], input) {
        &input[3..]
    } else {
        input
    }
}

/// Whether all characters are below 128.
fn is_text(input: &[u8]) -> bool
    ensures { result ≡ is_text input.now }
{
    input.iter().all(|c| *c < 128)
}

/// How a text holds bytes.
fn form_of(text: &[u8]) -> TextForm
    ensures { result ≡ form_of text.now }
{
    if begins(b"00000000:", text) {
        TextForm::Xxd
    } else if begins(b"00000000  ", text) {
        TextForm::Hexdump
    } else if begins(b"0000000 ", text) || begins(b"000000 ", text) {
        TextForm::Octal
    } else if begins(b"0000  ", text) {
        TextForm::Offsets
    } else {
        TextForm::Words
    }
}

/// What holds the bytes of an input.
pub(crate) fn container_of(input: &[u8]) -> Container
    ensures { result ≡ container_of input.now }
{
    let text = unmarked(input);
    if is_text(text) {
        Container::Text(form_of(text))
    } else {
        Container::Bytes
    }
}

/// The place of the first opening brace.
fn first_open(text: &[u8]) -> Option<usize>
    ensures value { result ≡ position is_open text.now }
    ensures within { IfSome result (λ place. place < length text.now) }
{
    text.iter().position(|c| *c == b'{')
}

/// The place of the first closing one.
fn first_close(text: &[u8]) -> Option<usize>
    ensures value { result ≡ position is_close text.now }
    ensures within { IfSome result (λ place. place < length text.now) }
{
    text.iter().position(|c| *c == b'}')
}

/// What stands within the first braces, or all where there are none.
pub(crate) fn within_braces(text: &[u8]) -> &[u8]
    ensures { result.now ≡ within_braces text.now }
{
    match first_open(text) {
        None => text,
        Some(open) => {
            let behind = &text[open + 1..];
            match first_close(behind) {
                None => behind,
                Some(close) => &behind[..close],
            }
        }
    }
}

/// Whether there are no second braces.
pub(crate) fn is_one_list(text: &[u8]) -> bool
    ensures { result ≡ is_one_list text.now }
{
    text.iter().filter(|c| **c == b'{').count() <= 1
}
