//! Reading the list of a bus.
ghost use Rattle.std.specs.Prelude.{◌≡◌, ◌≢◌, IfOk, IfErr};
ghost use Rattle.busconf_c.specs.Answers.{AnswersTree, IsListOf, IsBadCapture, AnswersCapture};
ghost use Rattle.c_records.specs.Shown.{TellsNodes};

use crate::answer::tree_of;
use crate::shown::{bus_record, show_nodes};
use c_border::{NO_MEMORY, OK, REFUSED, TOO_SHORT};
use c_records::{BusRecord, FaultRecord, NodeRecord, fault_with};
use quad_lanes::{PairFault, QuadList, first_bad_pair, firsts, pairs_of};
use std::alloc::Global;
use topology_stack::BusTree;

/// Shows a tree, or its bus alone where there is no room for the nodes.
pub(crate) fn show(tree: &BusTree, nodes: &mut [NodeRecord], bus: &mut BusRecord) -> u32
    ensures { TellsNodes tree.now nodes.old nodes.new bus.new result }
{
    *bus = bus_record(tree);
    if nodes.len() < tree.len() as usize {
        return TOO_SHORT;
    }
    show_nodes(tree, nodes);
    OK
}

/// Reads a list by the standard of a year.
fn read_list(
    alloc: Global,
    quads: &[u32],
    year: u32,
    nodes: &mut [NodeRecord],
    bus: &mut BusRecord,
    fault: &mut FaultRecord,
) -> u32
    ensures answer { AnswersTree year quads.now fault.old fault.new result
        (λ t. TellsNodes t nodes.old nodes.new bus.new result) }
    ensures kept { result ≢ 0 → nodes.new ≡ nodes.old }
    ensures bus_kept { result ≢ 0 → result ≢ 3 → bus.new ≡ bus.old }
{
    match tree_of(alloc, quads, year, fault) {
        Ok(tree) => show(&tree, nodes, bus),
        Err(status) => status,
    }
}

/// Reads the first quadlets of the self-ID packets of a bus by the standard of a year, 1995 or 2000.
#[unsafe(no_mangle)]
pub extern "C" fn busconf_read(
    alloc: Global,
    quads: &[u32],
    year: u32,
    nodes: &mut [NodeRecord],
    bus: &mut BusRecord,
    fault: &mut FaultRecord,
) -> u32
    ensures answer { AnswersTree year quads.now fault.old fault.new result
        (λ t. TellsNodes t nodes.old nodes.new bus.new result) }
    ensures kept { result ≢ 0 → nodes.new ≡ nodes.old }
    ensures bus_kept { result ≢ 0 → result ≢ 3 → bus.new ≡ bus.old }
{
    read_list(alloc, quads, year, nodes, bus, fault)
}

/// The list of a capture. Where it has none the status says why, and the fault is told.
fn list_of(alloc: Global, bytes: &[u8], fault: &mut FaultRecord) -> Result<QuadList, u32>
    ensures found { IfOk result (λ quads. IsListOf bytes.now quads × (fault.new ≡ fault.old)) }
    ensures none { IfErr result (λ status. IsBadCapture bytes.now fault.old fault.new status) }
{
    let pairs = match pairs_of(alloc, bytes) {
        Ok(pairs) => pairs,
        Err(PairFault::Length { whole_pairs }) => {
            *fault = fault_with(12, whole_pairs, 0, 0);
            return Err(REFUSED);
        }
        Err(PairFault::Memory(_)) => return Err(NO_MEMORY),
    };
    if let Some(pair) = first_bad_pair(pairs.as_slice()) {
        *fault = fault_with(13, pair, 0, 0);
        return Err(REFUSED);
    }
    match firsts(alloc, pairs.as_slice()) {
        Ok(list) => Ok(list),
        Err(_) => Err(NO_MEMORY),
    }
}

/// Reads the bytes of a capture by the standard of a year, 1995 or 2000.
#[unsafe(no_mangle)]
pub extern "C" fn busconf_read_capture(
    alloc: Global,
    bytes: &[u8],
    year: u32,
    nodes: &mut [NodeRecord],
    bus: &mut BusRecord,
    fault: &mut FaultRecord,
) -> u32
    ensures answer { AnswersCapture year bytes.now fault.old fault.new result
        (λ t. TellsNodes t nodes.old nodes.new bus.new result) }
    ensures kept { result ≢ 0 → nodes.new ≡ nodes.old }
    ensures bus_kept { result ≢ 0 → result ≢ 3 → bus.new ≡ bus.old }
{
    match list_of(alloc, bytes, fault) {
        Ok(list) => read_list(alloc, list.as_slice(), year, nodes, bus, fault),
        Err(status) => status,
    }
}
