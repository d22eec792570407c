//! The first driver that a line names.
ghost use Rattle.std.specs.Prelude.{◌≡◌, Some, None, MatchOption};
ghost use Rattle.log_line.specs.Driver.{time_at, driver};

use crate::said::{is_driver, is_record};
use crate::time::{front_time, record_time};
use crate::word::Word;

/// The time that a driver's word has itself, and else the one before it.
fn time_at(word: &Word, before: Option<u64>) -> Option<u64>
    ensures { result ≡ time_at word.now before }
{
    if is_record(word) {
        if let Some(time) = record_time(word) {
            return Some(time);
        }
    }
    before
}

/// The first driver that words name: the last time up to it, where there is one, and the words behind it.
pub(crate) fn driver<'w, 'a>(words: &'w [Word<'a>]) -> Option<(Option<u64>, &'w [Word<'a>])>
    ensures { MatchOption result (driver None words.now ≡ None)
        (λ d. driver None words.now ≡ Some (d.0, d.1.now)) }
{
    let mut time = None;
    let mut rest = words;
    while let [word, behind @ ..] = rest {
        if is_driver(word) {
            return Some((time_at(word, time), behind));
        }
        if let Some(found) = front_time(word) {
            time = Some(found);
        }
        rest = behind;
    }
    None
}
