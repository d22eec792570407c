//! Times in microseconds, where they are known.
ghost use Rattle.std.specs.Prelude.{◌≡◌};
ghost use Rattle.reset_list.specs.Times.{between, shorter};

/// How long one moment is past at another one that isn't before it.
pub fn between(past: Option<u64>, now: Option<u64>) -> Option<u64>
    ensures { result ≡ between past now }
{
    match (past, now) {
        (Some(past), Some(now)) => now.checked_sub(past),
        _ => None,
    }
}

/// The shorter of two times, or the one that is known.
pub(crate) fn shorter(one: Option<u64>, other: Option<u64>) -> Option<u64>
    ensures { result ≡ shorter one other }
{
    match (one, other) {
        (Some(one), Some(other)) => Some(one.min(other)),
        (None, time) | (time, None) => time,
    }
}
