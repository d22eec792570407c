//! What two captures come to.
ghost use Rattle.std.specs.Prelude.{◌≡◌};
ghost use Rattle.bus_diff.specs.declared.change.Change.{Change};
ghost use Rattle.diff_form.specs.Difference.{outcome_of};

use bus_diff::Change;

/// One of two captures.
#[derive(Clone, Copy, Debug, PartialEq, Eq)]
pub enum Side {
    /// The one that is compared from.
    Old,
    /// The one that is compared to.
    New,
}

/// What two captures come to.
#[derive(Clone, Copy, Debug, PartialEq, Eq)]
pub enum Outcome {
    /// Nothing differs between their trees.
    Same,
    /// Something does.
    Differs,
    /// The old capture is refused.
    OldRefused,
    /// The new one is.
    NewRefused,
    /// Both are.
    BothRefused,
}

/// What two captures with these changes between their trees come to.
pub(crate) fn outcome_of(changes: &[Change]) -> Outcome
    ensures { result ≡ outcome_of changes.now }
{
    match changes {
        [] => Outcome::Same,
        _ => Outcome::Differs,
    }
}
