//! Passing over the lines that are none of the events.
ghost use Rattle.std.specs.Prelude.{◌≡◌, ◌<◌, ◌||◌, codes, length, true, false, if◌then◌else◌, is_some, IfSome, IfNone};
ghost use Rattle.log_line.specs.Words.{behind};
ghost use Rattle.log_line.specs.Marks.{is_mark, has_mark, begins_loss};

use crate::words::is_blank;
use memchr::memchr;

/// What stands behind the first underscore of a text.
fn behind_underscore(text: &[u8]) -> Option<&[u8]>
    ensures some { IfSome result (λ rest. has_mark text.now
        ≡ if is_mark rest.now then true else has_mark rest.now) }
    ensures shorter { IfSome result (λ rest. length rest.now < length text.now) }
    ensures none { IfNone result (has_mark text.now ≡ false) }
{
    match memchr(b'_', text) {
        Some(at) => Some(&text[at + 1..]),
        None => None,
    }
}

fn begins(text: &[u8], key: &[u8]) -> bool
    ensures { result ≡ is_some (behind key.now text.now) }
{
    text.strip_prefix(key).is_some()
}

/// Whether a text that begins with `c` goes on as one of the names does. Of most the fourth byte tells.
fn is_c_mark(text: &[u8]) -> bool
    ensures { result ≡ is_some (behind (codes "complete:") text.now)
        || is_some (behind (codes "core") text.now) }
{
    let [_, _, _, fourth, ..] = text else {
        return false;
    };
    if *fourth == b'p' {
        begins(text, b"complete:")
    } else {
        *fourth == b'e' && begins(text, b"core")
    }
}

/// Whether a text goes on as one of the names does behind its underscore. Of most its first byte tells.
fn is_mark(text: &[u8]) -> bool
    ensures { result ≡ is_mark text.now }
{
    let [first, ..] = text else {
        return false;
    };
    if *first == b'c' {
        is_c_mark(text)
    } else if *first == b'h' {
        begins(text, b"handle:")
    } else {
        *first == b'o' && begins(text, b"ohci")
    }
}

/// Whether a mark of one of the names stands in a line.
pub fn has_mark(line: &[u8]) -> bool
    ensures { result ≡ has_mark line.now }
{
    let mut rest = line;
    while let Some(behind) = behind_underscore(rest) {
        if is_mark(behind) {
            return true;
        }
        rest = behind;
    }
    false
}

/// Whether the first word of a line begins as that of a line on lost events.
pub fn begins_loss(line: &[u8]) -> bool
    ensures { result ≡ begins_loss line.now }
{
    let mut rest = line;
    while let [c, behind @ ..] = rest {
        if !is_blank(*c) {
            return *c == b'C';
        }
        rest = behind;
    }
    false
}

/// Whether a line may be one that is shown. Of most others it is known by a glance that they aren't.
pub(crate) fn may_be_shown(line: &[u8]) -> bool
    ensures { result ≡ has_mark line.now || begins_loss line.now }
{
    has_mark(line) || begins_loss(line)
}
