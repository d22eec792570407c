//! What is said of a fault: where it is, its kind, and what was found and wanted.
ghost use Rattle.std.specs.Prelude.{◌≡◌, ◌≤◌, None, Some, length};
ghost use Rattle.capture_reading.specs.Line.{refusal_of};

use crate::fault::CaptureFault;
use self_id::GroupFault;
use topology_stack::TreeFault;

/// How many there were, and how many it should have been.
#[derive(Clone, Copy, Debug, PartialEq, Eq)]
pub struct Counts {
    /// How many there were.
    pub found: u8,
    /// How many it should have been.
    pub wanted: u8,
}

/// What each text on a refused capture says of its fault.
#[derive(Clone, Copy, Debug, PartialEq, Eq)]
pub struct Refusal {
    /// The pair at fault, from 0.
    pub pair: usize,
    /// The kind of the fault, one word.
    pub kind: &'static str,
    /// What was found and wanted, where both are known.
    pub counts: Option<Counts>,
}

/// A refusal without counts.
fn plain(pair: usize, kind: &'static str) -> Refusal
    ensures pair { result.pair ≡ pair }
    ensures kind { result.kind.now ≡ kind.now }
    ensures counts { result.counts ≡ None }
{
    Refusal {
        pair,
        kind,
        counts: None,
    }
}

/// A refusal with counts.
fn counted(pair: usize, kind: &'static str, found: u8, wanted: u8) -> Refusal
    ensures pair { result.pair ≡ pair }
    ensures kind { result.kind.now ≡ kind.now }
    ensures counts { result.counts ≡ Some (record { found = found; wanted = wanted }) }
{
    Refusal {
        pair,
        kind,
        counts: Some(Counts { found, wanted }),
    }
}

/// What is said of a group's fault.
fn group_refusal(fault: GroupFault) -> Refusal
    ensures pair { result.pair ≡ (refusal_of (CaptureFault.Tree (TreeFault.Group fault))).pair }
    ensures kind { result.kind.now ≡ (refusal_of (CaptureFault.Tree (TreeFault.Group fault))).kind }
    ensures counts { result.counts ≡ (refusal_of (CaptureFault.Tree (TreeFault.Group fault))).counts }
    ensures few { length result.kind.now ≤ 20 }
{
    match fault {
        GroupFault::NotSelfId { at } => plain(at, "NotSelfId"),
        GroupFault::WrongId { at, found, wanted } => counted(at, "WrongId", found, wanted),
        GroupFault::BadOrder { at } => plain(at, "BadOrder"),
        GroupFault::Cut { at } => plain(at, "Cut"),
        GroupFault::TwoParents { at } => plain(at, "TwoParents"),
    }
}

/// What is said of a list's fault.
fn tree_refusal(fault: TreeFault) -> Refusal
    ensures pair { result.pair ≡ (refusal_of (CaptureFault.Tree fault)).pair }
    ensures kind { result.kind.now ≡ (refusal_of (CaptureFault.Tree fault)).kind }
    ensures counts { result.counts ≡ (refusal_of (CaptureFault.Tree fault)).counts }
    ensures few { length result.kind.now ≤ 20 }
{
    match fault {
        TreeFault::Group(fault) => group_refusal(fault),
        TreeFault::Empty => plain(0, "Empty"),
        TreeFault::TooFewChildren { at, found, wanted } => {
            counted(at, "TooFewChildren", found, wanted)
        }
        TreeFault::TreesLeft { at, found, wanted } => counted(at, "TreesLeft", found, wanted),
        TreeFault::AfterRoot { at } => plain(at, "AfterRoot"),
        TreeFault::NoRoot { at } => plain(at, "NoRoot"),
        TreeFault::TooMany { at } => plain(at, "TooMany"),
    }
}

/// What is said of a capture's fault: the pair at fault, the kind of the fault in at most 20 bytes, and
/// what was found and wanted, where both are known.
pub fn refusal_of(fault: CaptureFault) -> Refusal
    ensures pair { result.pair ≡ (refusal_of fault).pair }
    ensures kind { result.kind.now ≡ (refusal_of fault).kind }
    ensures counts { result.counts ≡ (refusal_of fault).counts }
    ensures few { length result.kind.now ≤ 20 }
{
    match fault {
        CaptureFault::BadLength { pair } => plain(pair, "BadLength"),
        CaptureFault::BadInverse { pair } => plain(pair, "BadInverse"),
        CaptureFault::Tree(fault) => tree_refusal(fault),
    }
}
