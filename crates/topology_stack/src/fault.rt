//! Why a list of quadlets is no bus tree's.

ghost use Rattle.std.specs.Prelude.{◌≡◌};

use quad_lanes::OutOfMemory;
use self_id::GroupFault;
use std::alloc::{AllocError, AllocFailed};
use thiserror::Error;

/// Why no bus tree of a standard emits a list. Each list that no tree emits has exactly one fault.
/// `at` is a
/// place in the list, counted in quadlets from 0.
#[derive(Clone, Copy, Debug, PartialEq, Eq)]
pub enum TreeFault {
    /// No group of the next node stands where one has to.
    Group(GroupFault),
    /// The list has no quadlets.
    Empty,
    /// The node of the group at `at` wants more children than trees wait for a parent.
    TooFewChildren { at: usize, found: u8, wanted: u8 },
    /// The root is the node of the group at `at`, and it wants fewer children than trees wait for a
    /// parent.
    TreesLeft { at: usize, found: u8, wanted: u8 },
    /// The list goes on behind the root, at `at`.
    AfterRoot { at: usize },
    /// The list ends, at `at`, before a root.
    NoRoot { at: usize },
    /// The list goes on behind 63 nodes, at `at`.
    TooMany { at: usize },
}

/// Why `read_tree` or `read_tree95` answers no tree.
#[derive(Debug, Drop, Error)]
pub enum TreeStop {
    /// No bus tree emits the list.
    #[error("refused: {0:?}")]
    Fault(TreeFault),
    /// There was no memory.
    #[error("out of memory")]
    Memory(OutOfMemory),
}

impl From<AllocError> for TreeStop {
    ghost use Rattle.topology_stack.specs.declared.fault.TreeStop.TheVariants.{Memory};

    ghost from_gives = { λ x e. e ≡ Memory x };

    fn from(e: AllocError) -> TreeStop {
        TreeStop::Memory(e)
    }
}

impl<T: Drop> From<AllocFailed<T>> for TreeStop {
    ghost use Rattle.std.specs.Prelude.{alloc_error};
    ghost use Rattle.topology_stack.specs.declared.fault.TreeStop.TheVariants.{Memory};

    ghost from_gives = { λ _ e. e ≡ Memory alloc_error };

    fn from(e: AllocFailed<T>) -> TreeStop {
        TreeStop::Memory(AllocError::from(e))
    }
}

impl From<TreeFault> for TreeStop {
    ghost use Rattle.topology_stack.specs.declared.fault.TreeStop.TheVariants.{Fault};

    ghost from_gives = { λ f e. e ≡ Fault f };

    fn from(f: TreeFault) -> TreeStop {
        TreeStop::Fault(f)
    }
}

impl From<GroupFault> for TreeStop {
    ghost use Rattle.topology_stack.specs.declared.fault.TreeFault.TheVariants.{Group};
    ghost use Rattle.topology_stack.specs.declared.fault.TreeStop.TheVariants.{Fault};

    ghost from_gives = { λ f e. e ≡ Fault (Group f) };

    fn from(f: GroupFault) -> TreeStop {
        TreeStop::Fault(TreeFault::Group(f))
    }
}
