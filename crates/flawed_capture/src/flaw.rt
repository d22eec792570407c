//! The kinds of fault that a capture can have.
ghost use Rattle.std.specs.Prelude.{◌≡◌, ◌↔◌, Some, IfSome};
ghost use Rattle.flawed_capture.specs.Flaw.{FaultsHaveTheirKindsWord, flaw_word, least_nodes};
ghost use Rattle.flawed_capture.specs.declared.flaw.Flaw.{Flaw};

use capture_reading::CaptureFault;
use self_id::GroupFault;
use std::alloc::{AllocError, AllocFailed};
use thiserror::Error;
use topology_stack::{OutOfMemory, TreeFault};

/// A kind of fault of a capture. `busconf read` writes each by the name that it has here.
#[derive(Clone, Copy, Debug, PartialEq, Eq)]
pub enum Flaw {
    /// The bytes end within a pair of quadlets.
    BadLength,
    /// The second quadlet of a pair isn't the inverse of the first.
    BadInverse,
    /// A quadlet is no self-ID packet.
    NotSelfId,
    /// A packet has another phy_ID than that of the node whose turn it is.
    WrongId,
    /// A packet isn't the next one of its group.
    BadOrder,
    /// The list ends where a further packet of a group is to stand.
    Cut,
    /// More than one slot of a node leads to a parent.
    TwoParents,
    /// There are no packets.
    Empty,
    /// A node wants more children than trees wait for a parent.
    TooFewChildren,
    /// A root wants fewer children than trees wait for a parent.
    TreesLeft,
    /// The list goes on behind the root.
    AfterRoot,
    /// The list ends before a root.
    NoRoot,
    /// The list goes on behind 63 nodes.
    TooMany,
}

impl From<GroupFault> for Flaw {
    ghost use Rattle.flawed_capture.specs.Flaw.{of_group};

    ghost from_gives = { λ fault flaw. flaw ≡ of_group fault };

    fn from(fault: GroupFault) -> Flaw {
        match fault {
            GroupFault::NotSelfId { .. } => Flaw::NotSelfId,
            GroupFault::WrongId { .. } => Flaw::WrongId,
            GroupFault::BadOrder { .. } => Flaw::BadOrder,
            GroupFault::Cut { .. } => Flaw::Cut,
            GroupFault::TwoParents { .. } => Flaw::TwoParents,
        }
    }
}

impl From<TreeFault> for Flaw {
    ghost use Rattle.flawed_capture.specs.Flaw.{of_tree};

    ghost from_gives = { λ fault flaw. flaw ≡ of_tree fault };

    fn from(fault: TreeFault) -> Flaw {
        match fault {
            TreeFault::Group(fault) => Flaw::from(fault),
            TreeFault::Empty => Flaw::Empty,
            TreeFault::TooFewChildren { .. } => Flaw::TooFewChildren,
            TreeFault::TreesLeft { .. } => Flaw::TreesLeft,
            TreeFault::AfterRoot { .. } => Flaw::AfterRoot,
            TreeFault::NoRoot { .. } => Flaw::NoRoot,
            TreeFault::TooMany { .. } => Flaw::TooMany,
        }
    }
}

impl From<CaptureFault> for Flaw {
    ghost use Rattle.flawed_capture.specs.Flaw.{of_capture};

    ghost from_gives = { λ fault flaw. flaw ≡ of_capture fault };

    fn from(fault: CaptureFault) -> Flaw {
        match fault {
            CaptureFault::BadLength { .. } => Flaw::BadLength,
            CaptureFault::BadInverse { .. } => Flaw::BadInverse,
            CaptureFault::Tree(fault) => Flaw::from(fault),
        }
    }
}

impl Flaw {
    /// The kind that is called by this word. `None` exactly where none is.
    pub fn of_word(word: &str) -> Option<Flaw>
        ensures { (flaw : Flaw) → (result ≡ Some flaw) ↔ (word.now ≡ flaw_word flaw) }
    {
        match word {
            "BadLength" => Some(Flaw::BadLength),
            "BadInverse" => Some(Flaw::BadInverse),
            "NotSelfId" => Some(Flaw::NotSelfId),
            "WrongId" => Some(Flaw::WrongId),
            "BadOrder" => Some(Flaw::BadOrder),
            "Cut" => Some(Flaw::Cut),
            "TwoParents" => Some(Flaw::TwoParents),
            "Empty" => Some(Flaw::Empty),
            "TooFewChildren" => Some(Flaw::TooFewChildren),
            "TreesLeft" => Some(Flaw::TreesLeft),
            "AfterRoot" => Some(Flaw::AfterRoot),
            "NoRoot" => Some(Flaw::NoRoot),
            "TooMany" => Some(Flaw::TooMany),
            _ => None,
        }
    }

    /// How many nodes a list shows at least that has this kind of fault, 0 to 63.
    pub fn least_nodes(self) -> u8
        ensures { result ≡ least_nodes self }
    {
        match self {
            Flaw::TreesLeft => 2,
            Flaw::TooMany => 63,
            _ => 0,
        }
    }
}

/// A law: each fault of a capture is named by the word of its kind.
pub fn faults_have_their_kinds_word()
    ensures { FaultsHaveTheirKindsWord }
{}

/// Why no capture with a flaw was made.
#[derive(Debug, Drop, Error)]
pub enum FlawStop {
    /// No list of so few nodes has the kind of fault: it wants this many.
    #[error("no list of fewer than {wanted} nodes has this kind of fault")]
    TooFewNodes { wanted: u8 },
    /// No nodes were asked for, and no bus has none.
    #[error("a bus has at least one node")]
    NoBus,
    /// None of the changes that were tried of the list of the bus gave the kind of fault. `flawed_capture`
    /// never answers so.
    #[error("no change that was tried of the made bus gave this kind of fault")]
    NotFound,
    /// There was no memory.
    #[error("out of memory")]
    Memory(OutOfMemory),
}

impl From<AllocError> for FlawStop {
    ghost use Rattle.flawed_capture.specs.declared.flaw.FlawStop.TheVariants.{Memory};

    ghost from_gives = { λ e stop. stop ≡ Memory e };

    fn from(e: AllocError) -> FlawStop {
        FlawStop::Memory(e)
    }
}

impl<T: Drop> From<AllocFailed<T>> for FlawStop {
    ghost use Rattle.std.specs.Prelude.{alloc_error};
    ghost use Rattle.flawed_capture.specs.declared.flaw.FlawStop.TheVariants.{Memory};

    ghost from_gives = { λ _ stop. stop ≡ Memory alloc_error };

    fn from(e: AllocFailed<T>) -> FlawStop {
        FlawStop::Memory(AllocError::from(e))
    }
}
