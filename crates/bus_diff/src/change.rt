//! What differs between two buses.
ghost use Rattle.std.specs.Prelude.{◌≡◌};
ghost use Rattle.topology_stack.specs.Text.{truth};
ghost use Rattle.bus_diff.specs.Change.{value_of};

use crate::pair::Pair;
use self_id::Attrs;
use view_text::Cable;

/// What a node says of itself, and what is compared of it. Whether it initiated the reset isn't.
#[derive(Clone, Copy, Debug, PartialEq, Eq)]
pub enum Quality {
    /// L: 1 where its link is active, else 0.
    Link,
    /// Its gap count.
    Gap,
    /// Its speed code.
    Speed,
    /// c: 1 where it contends, else 0.
    Contender,
    /// Its power class.
    Power,
}

/// Something that differs.
#[derive(Clone, Copy, Debug, PartialEq, Eq)]
pub enum Change {
    /// A node of the old bus isn't in the new one. It hung on this cable, unless it was the root.
    Went {
        id: u8,
        cable: Option<Cable>,
    },
    /// A node of the new bus wasn't in the old one. It hangs on this cable, unless it is the root.
    Came {
        id: u8,
        cable: Option<Cable>,
    },
    /// The cable on which a node hung in the old bus isn't in the new one, or that on which it hangs in the new
    /// bus wasn't in the old one, or both.
    Moved {
        pair: Pair,
        from: Option<Cable>,
        to: Option<Cable>,
    },
    /// A node says another value of itself.
    Value {
        pair: Pair,
        quality: Quality,
        from: u8,
        to: u8,
    },
    /// Another node is the root.
    Root {
        from: u8,
        to: u8,
    },
    /// Another node is the isochronous resource manager, or there was none, or there is none.
    Manager {
        from: Option<u8>,
        to: Option<u8>,
    },
}

/// 1 for `true`, 0 for `false`.
fn truth(flag: bool) -> u8
    ensures { result ≡ truth flag }
{
    if flag { 1 } else { 0 }
}

/// What a node with these attributes says of itself.
pub(crate) fn value_of(quality: Quality, attrs: Attrs) -> u8
    ensures { result ≡ value_of quality attrs }
{
    match quality {
        Quality::Link => truth(attrs.link),
        Quality::Gap => attrs.gap,
        Quality::Speed => attrs.speed,
        Quality::Contender => truth(attrs.contender),
        Quality::Power => attrs.power,
    }
}
