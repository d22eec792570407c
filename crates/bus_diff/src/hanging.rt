//! The cables on which nodes hang, and which of them are in both buses.
ghost use Rattle.std.specs.Prelude.{◌≡◌};
ghost use Rattle.bus_diff.specs.Change.{hangs_on, is_same_cable, stays_plugged, was_plugged, pulled, plugged};

use crate::pair::{Pair, is_one};
use view_text::Cable;

/// The cable on which the node with this ID hangs, if it isn't the root.
pub(crate) fn hangs_on(cables: &[Cable], id: u8) -> Option<Cable>
    ensures { result ≡ hangs_on cables.now id }
{
    cables.iter().copied().find(|cable| cable.child == id)
}

/// Whether two cables join the same ports of the same nodes.
fn is_same_cable(pairs: &[Pair], old: &Cable, new: &Cable) -> bool
    ensures { result ≡ is_same_cable pairs.now old.now new.now }
{
    (is_one(pairs, old.parent, new.parent)
        && is_one(pairs, old.child, new.child)
        && old.port == new.port
        && old.child_port == new.child_port)
        || (is_one(pairs, old.parent, new.child)
            && is_one(pairs, old.child, new.parent)
            && old.port == new.child_port
            && old.child_port == new.port)
}

/// Whether a cable of the old bus is in the new one.
fn stays_plugged(pairs: &[Pair], new: &[Cable], cable: &Cable) -> bool
    ensures { result ≡ stays_plugged pairs.now new.now cable.now }
{
    new.iter().any(|other| is_same_cable(pairs, cable, other))
}

/// Whether a cable of the new bus was in the old one.
fn was_plugged(pairs: &[Pair], old: &[Cable], cable: &Cable) -> bool
    ensures { result ≡ was_plugged pairs.now old.now cable.now }
{
    old.iter().any(|other| is_same_cable(pairs, other, cable))
}

/// The cable on which a node of the old bus hangs, if it isn't in the new one.
pub(crate) fn pulled(pairs: &[Pair], old: &[Cable], new: &[Cable], id: u8) -> Option<Cable>
    ensures { result ≡ pulled pairs.now old.now new.now id }
{
    match hangs_on(old, id) {
        Some(cable) if !stays_plugged(pairs, new, &cable) => Some(cable),
        _ => None,
    }
}

/// The cable on which a node of the new bus hangs, if it wasn't in the old one.
pub(crate) fn plugged(pairs: &[Pair], old: &[Cable], new: &[Cable], id: u8) -> Option<Cable>
    ensures { result ≡ plugged pairs.now old.now new.now id }
{
    match hangs_on(new, id) {
        Some(cable) if !was_plugged(pairs, old, &cable) => Some(cable),
        _ => None,
    }
}
