//! The keys of a `node` line.
ghost use Rattle.std.specs.Prelude.{◌≡◌};
ghost use Rattle.std.specs.Str.{bytes_eq};
ghost use Rattle.std.specs.Result.{result_err};
ghost use Rattle.script_lines.specs.Key.{word_of, rival, limits, key_of, is_pair, wrong_value};

use crate::coins::are_coins;
use crate::kind::Kind;
use crate::word::Word;
use port_state::TimeRanges;

/// The keys of a `node` line.
#[derive(Clone, Copy, Debug)]
pub(crate) enum Key {
    Speed,
    Link,
    Contender,
    Force,
    Power,
    Gap,
    GapReset,
    Hold,
    Short,
    Long,
    Coins,
    Seed,
    Kind,
}

impl Key {
    /// The key that a word is.
    pub(crate) fn of_word(word: &Word) -> Option<Key>
        ensures { result ≡ key_of word.now }
    {
        if word.is(b"speed") {
            Some(Key::Speed)
        } else if word.is(b"link") {
            Some(Key::Link)
        } else if word.is(b"contender") {
            Some(Key::Contender)
        } else if word.is(b"force") {
            Some(Key::Force)
        } else if word.is(b"power") {
            Some(Key::Power)
        } else if word.is(b"gap") {
            Some(Key::Gap)
        } else if word.is(b"gapreset") {
            Some(Key::GapReset)
        } else if word.is(b"hold") {
            Some(Key::Hold)
        } else if word.is(b"short") {
            Some(Key::Short)
        } else if word.is(b"long") {
            Some(Key::Long)
        } else if word.is(b"coins") {
            Some(Key::Coins)
        } else if word.is(b"seed") {
            Some(Key::Seed)
        } else if word.is(b"kind") {
            Some(Key::Kind)
        } else {
            None
        }
    }

    /// Whether a word is this key.
    pub(crate) fn is(self, word: &Word) -> bool
        ensures { result ≡ bytes_eq word.now (word_of self) }
    {
        match self {
            Key::Speed => word.is(b"speed"),
            Key::Link => word.is(b"link"),
            Key::Contender => word.is(b"contender"),
            Key::Force => word.is(b"force"),
            Key::Power => word.is(b"power"),
            Key::Gap => word.is(b"gap"),
            Key::GapReset => word.is(b"gapreset"),
            Key::Hold => word.is(b"hold"),
            Key::Short => word.is(b"short"),
            Key::Long => word.is(b"long"),
            Key::Coins => word.is(b"coins"),
            Key::Seed => word.is(b"seed"),
            Key::Kind => word.is(b"kind"),
        }
    }

    /// The key that may not stand beside this one: coins and a seed exclude each other, and each
    /// other key itself.
    pub(crate) fn rival(self) -> Key
        ensures { result ≡ rival self }
    {
        match self {
            Key::Coins => Key::Seed,
            Key::Seed => Key::Coins,
            key => key,
        }
    }

    /// The least and the greatest number that may stand behind the key, where the times of nodes are
    /// in these ranges.
    pub(crate) fn limits(self, times: TimeRanges) -> (u32, u32)
        ensures { result ≡ limits times self }
    {
        let TimeRanges { least, most } = times;
        match self {
            Key::Speed => (0, 2),
            Key::Link | Key::Contender | Key::Force | Key::GapReset => (0, 1),
            Key::Power => (0, 7),
            Key::Gap => (0, 63),
            Key::Hold => (u32::from(least.hold), u32::from(most.hold)),
            Key::Short => (u32::from(least.short), u32::from(most.short)),
            Key::Long => (u32::from(least.long), u32::from(most.long)),
            Key::Coins | Key::Seed | Key::Kind => (0, u32::MAX),
        }
    }

    /// What is wrong with a value behind the key.
    pub(crate) fn check(self, value: &Word, times: TimeRanges) -> Result<(), Kind>
        ensures { result_err result ≡ wrong_value times self value.now }
    {
        match self {
            Key::Kind => Ok(()),
            Key::Coins => {
                if are_coins(value.as_bytes()) {
                    Ok(())
                } else {
                    Err(Kind::Number)
                }
            }
            key => {
                let (least, most) = key.limits(times);
                value.number(least, most)?;
                Ok(())
            }
        }
    }
}

/// Whether two words are a key and what may stand behind it, if it is right.
pub(crate) fn is_pair(key: &Word, value: &Word) -> bool
    ensures { result ≡ is_pair key.now value.now }
{
    match Key::of_word(key) {
        None => false,
        Some(Key::Kind) => value.is(b"field") || value.is(b"packed"),
        Some(_) => true,
    }
}
