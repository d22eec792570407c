//! A fault as a record, and the fault that a record tells.
ghost use Rattle.std.specs.Prelude.{◌≡◌};
ghost use Rattle.c_records.specs.Faults.{group_record, tree_record, fault_with, tree_fault_in, fault_in, ListFaultsAreReadBack, FaultsAreReadBack};

use crate::records::FaultRecord;
use capture_reading::CaptureFault;
use self_id::GroupFault;
use topology_stack::TreeFault;

/// The record of a kind at a place, with what was found and wanted.
pub fn fault_with(kind: u8, at: usize, found: u8, wanted: u8) -> FaultRecord
    ensures { result ≡ fault_with kind at found wanted }
{
    FaultRecord {
        at,
        kind,
        found,
        wanted,
    }
}

/// The record of a group's fault.
fn group_record(fault: GroupFault) -> FaultRecord
    ensures { result ≡ group_record fault }
{
    match fault {
        GroupFault::NotSelfId { at } => fault_with(1, at, 0, 0),
        GroupFault::WrongId { at, found, wanted } => fault_with(2, at, found, wanted),
        GroupFault::BadOrder { at } => fault_with(3, at, 0, 0),
        GroupFault::Cut { at } => fault_with(4, at, 0, 0),
        GroupFault::TwoParents { at } => fault_with(5, at, 0, 0),
    }
}

/// The record of a list's fault.
pub fn tree_record(fault: TreeFault) -> FaultRecord
    ensures { result ≡ tree_record fault }
{
    match fault {
        TreeFault::Group(fault) => group_record(fault),
        TreeFault::Empty => fault_with(6, 0, 0, 0),
        TreeFault::TooFewChildren { at, found, wanted } => fault_with(7, at, found, wanted),
        TreeFault::TreesLeft { at, found, wanted } => fault_with(8, at, found, wanted),
        TreeFault::AfterRoot { at } => fault_with(9, at, 0, 0),
        TreeFault::NoRoot { at } => fault_with(10, at, 0, 0),
        TreeFault::TooMany { at } => fault_with(11, at, 0, 0),
    }
}

/// The fault of a list that a record tells whose kind is 1 to 11.
pub(crate) fn tree_fault_in(fault: &FaultRecord) -> TreeFault
    ensures { result ≡ tree_fault_in fault.now }
{
    let FaultRecord {
        at,
        kind,
        found,
        wanted,
    } = *fault;
    match kind {
        1 => TreeFault::Group(GroupFault::NotSelfId { at }),
        2 => TreeFault::Group(GroupFault::WrongId { at, found, wanted }),
        3 => TreeFault::Group(GroupFault::BadOrder { at }),
        4 => TreeFault::Group(GroupFault::Cut { at }),
        5 => TreeFault::Group(GroupFault::TwoParents { at }),
        6 => TreeFault::Empty,
        7 => TreeFault::TooFewChildren { at, found, wanted },
        8 => TreeFault::TreesLeft { at, found, wanted },
        9 => TreeFault::AfterRoot { at },
        10 => TreeFault::NoRoot { at },
        _ => TreeFault::TooMany { at },
    }
}

/// The fault of a capture that a record tells whose kind is 1 to 13.
pub fn fault_in(fault: &FaultRecord) -> CaptureFault
    ensures { result ≡ fault_in fault.now }
{
    match fault.kind {
        12 => CaptureFault::BadLength { pair: fault.at },
        13 => CaptureFault::BadInverse { pair: fault.at },
        _ => CaptureFault::Tree(tree_fault_in(fault)),
    }
}

/// A law: the fault of a fault's record is that fault, of a list and of a capture.
pub fn faults_are_read_back()
    ensures lists { ListFaultsAreReadBack }
    ensures captures { FaultsAreReadBack }
{}
