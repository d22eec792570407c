//! What differs between two buses.
ghost use Rattle.std.specs.Prelude.{◌≡◌, ◌≢◌, IfOk, IfErr};
ghost use Rattle.busconf_c.specs.Answers.{IsTreeOf, IsStop};
ghost use Rattle.busconf_c.specs.Changes.{TellsChanges, IsMarked, AnswersBoth};

use crate::answer::tree_of;
use crate::change::tell_changes;
use crate::records::ChangeRecord;
use bus_diff::compare;
use c_border::{NO_MEMORY, REFUSED};
use c_records::FaultRecord;
use std::alloc::Global;
use topology_stack::BusTree;

/// The bus tree of a year's standard that emits the list with this number. Where there is none the status
/// says why; where the list is refused, its number and its fault are told.
fn numbered_tree(
    alloc: Global,
    quads: &[u32],
    year: u32,
    number: u8,
    list: &mut u8,
    fault: &mut FaultRecord,
) -> Result<BusTree, u32>
    ensures found { IfOk result (λ t. IsTreeOf year quads.now t × (fault.new ≡ fault.old)) }
    ensures kept { IfOk result (λ t. list.new ≡ list.old) }
    ensures none { IfErr result (λ status. IsStop year quads.now fault.old fault.new status) }
    ensures marked { IfErr result (λ status. IsMarked number list.old list.new status) }
{
    match tree_of(alloc, quads, year, fault) {
        Ok(tree) => Ok(tree),
        Err(status) => {
            if status == REFUSED {
                *list = number;
            }
            Err(status)
        }
    }
}

/// Tells what differs between two trees, unless memory ran out for it.
fn tell_difference(
    alloc: Global,
    old: &BusTree,
    new: &BusTree,
    place: &mut [ChangeRecord],
    needed: &mut usize,
) -> u32
    ensures answer { TellsChanges old.now new.now place.old place.new needed.old needed.new result }
    ensures kept { result ≢ 0 → place.new ≡ place.old }
    ensures needed_kept { result ≢ 0 → result ≢ 3 → needed.new ≡ needed.old }
{
    match compare(alloc, old, new) {
        Ok(found) => tell_changes(found.changes.as_slice(), place, needed),
        Err(_) => NO_MEMORY,
    }
}

/// Tells what differs between the buses of two lists, the old one and the new one.
#[unsafe(no_mangle)]
pub extern "C" fn busconf_diff(
    alloc: Global,
    old: &[u32],
    new: &[u32],
    year: u32,
    place: &mut [ChangeRecord],
    needed: &mut usize,
    list: &mut u8,
    fault: &mut FaultRecord,
) -> u32
    ensures answer { AnswersBoth year old.now new.now fault.old fault.new list.old list.new result
        (λ o n. TellsChanges o n place.old place.new needed.old needed.new result) }
    ensures kept { result ≢ 0 → place.new ≡ place.old }
    ensures needed_kept { result ≢ 0 → result ≢ 3 → needed.new ≡ needed.old }
{
    let old_tree = match numbered_tree(alloc, old, year, 1, list, fault) {
        Ok(tree) => tree,
        Err(status) => return status,
    };
    match numbered_tree(alloc, new, year, 2, list, fault) {
        Ok(tree) => tell_difference(alloc, &old_tree, &tree, place, needed),
        Err(status) => status,
    }
}
