//! A reader of fixed size, for a list that comes quadlet by quadlet.
ghost use Rattle.std.specs.Prelude.{◌≡◌, ◌≢◌, ◌↔◌, ◌++◌, ◌∷◌, [], ℕ, List, take, IsTrue};
ghost use Rattle.self_id.specs.declared.standard.Standard.{Standard};
ghost use Rattle.self_id.specs.declared.standard.Standard.TheVariants.{Ieee2000};
ghost use Rattle.topology_stack.specs.Refused.{Refused};
ghost use Rattle.topology_stack.specs.Reader.{IsLasting};
ghost use Rattle.c_records.specs.Shown.{TellsNodes};
ghost use Rattle.heapless_c.specs.Reader.{HasTaken, IsNoTree, TellsState, TellsStateBy};

use crate::links::Links;
use crate::reading::link_nodes;
use crate::records::{READER_QUADS, ReaderRecord};
use crate::shown::show_nodes;
use c_border::{INCOMPLETE, NO_STANDARD, OK, REFUSED, TOO_SHORT};
use c_records::{BusRecord, FaultRecord, NodeRecord, standard_of, tree_record};
use self_id::{GroupFault, Standard};
use topology_stack::TreeFault;

/// Makes a reader that was given nothing.
#[unsafe(no_mangle)]
pub extern "C" fn busconf_reader_init(reader: &mut ReaderRecord)
    ensures { HasTaken reader.new [] }
{
    *reader = ReaderRecord {
        count: 0,
        quads: [0; READER_QUADS],
    };
}

/// Gives a reader the next quadlet of the list.
#[unsafe(no_mangle)]
pub extern "C" fn busconf_reader_push(reader: &mut ReaderRecord, quad: u32)
    ensures { (list : List ℕ) → HasTaken reader.old list → HasTaken reader.new (list ++ quad ∷ []) }
{
    let count = reader.count as usize;
    if count < READER_QUADS {
        reader.quads[count] = quad;
        reader.count += 1;
    }
}

/// The quadlets that a reader keeps.
fn kept(reader: &ReaderRecord) -> &[u32]
    ensures { (list : List ℕ) → HasTaken reader.now list → result.now ≡ take 253 list }
{
    let count = (reader.count as usize).min(READER_QUADS);
    &reader.quads[..count]
}

/// Whether a list keeps a fault however it goes on.
fn is_lasting(fault: TreeFault) -> bool
    ensures { IsTrue result ↔ IsLasting fault }
{
    !matches!(
        fault,
        TreeFault::Empty | TreeFault::NoRoot { .. } | TreeFault::Group(GroupFault::Cut { .. })
    )
}

/// Tells the fault of the first quadlets of a list, which are as many as a reader keeps.
fn tell_fault(found: TreeFault, fault: &mut FaultRecord) -> u32
    ensures { (standard : Standard) (kept list : List ℕ) → kept ≡ take 253 list →
        Refused standard kept found → IsNoTree standard list fault.new result }
{
    *fault = tree_record(found);
    if is_lasting(found) {
        REFUSED
    } else {
        INCOMPLETE
    }
}

/// Tells what the list is that a reader was given, by IEEE 1394a-2000.
#[unsafe(no_mangle)]
pub extern "C" fn busconf_reader_state(reader: &ReaderRecord, fault: &mut FaultRecord) -> u32
    ensures { (list : List ℕ) → HasTaken reader.now list →
        TellsState Ieee2000 list fault.old fault.new result (λ _. result ≡ 0) }
{
    let mut links = Links::new();
    match link_nodes(Standard::Ieee2000, kept(reader), &mut links) {
        Ok(_) => OK,
        Err(found) => tell_fault(found, fault),
    }
}

/// Tells the bus of a list and its nodes by a standard, or the bus alone where there is no room for the
/// nodes, or why there is none. The list is the first quadlets of another, as many as a reader keeps.
fn tell_bus(
    standard: Standard,
    quads: &[u32],
    nodes: &mut [NodeRecord],
    bus: &mut BusRecord,
    fault: &mut FaultRecord,
) -> u32
    ensures state { (list : List ℕ) → quads.now ≡ take 253 list → TellsState standard list fault.old
        fault.new result (λ t. TellsNodes t nodes.old nodes.new bus.new result) }
    ensures kept { result ≢ 0 → nodes.new ≡ nodes.old }
    ensures bus_kept { result ≢ 0 → result ≢ 3 → bus.new ≡ bus.old }
{
    let mut links = Links::new();
    match link_nodes(standard, quads, &mut links) {
        Ok(found) => {
            *bus = found;
            if nodes.len() < found.nodes as usize {
                return TOO_SHORT;
            }
            show_nodes(standard, quads, &links, found.nodes, nodes);
            OK
        }
        Err(found) => tell_fault(found, fault),
    }
}

/// Tells the bus of the list that a reader was given, and its nodes, by the standard of a year, 1995 or
/// 2000.
#[unsafe(no_mangle)]
pub extern "C" fn busconf_reader_bus(
    reader: &ReaderRecord,
    year: u32,
    nodes: &mut [NodeRecord],
    bus: &mut BusRecord,
    fault: &mut FaultRecord,
) -> u32
    ensures state { (list : List ℕ) → HasTaken reader.now list → TellsStateBy year list fault.old
        fault.new result (λ t. TellsNodes t nodes.old nodes.new bus.new result) }
    ensures kept { result ≢ 0 → nodes.new ≡ nodes.old }
    ensures bus_kept { result ≢ 0 → result ≢ 3 → bus.new ≡ bus.old }
{
    let Some(standard) = standard_of(year) else {
        return NO_STANDARD;
    };
    tell_bus(standard, kept(reader), nodes, bus, fault)
}
