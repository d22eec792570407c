//! The capture of a script's bus.
ghost use Rattle.std.specs.Prelude.{◌≡◌, ◌++◌, ◌<◌, ◌≤◌, Err, IfOk, OnOk, length};
ghost use Rattle.std.specs.Int.{w32, to_be_bytes};
ghost use Rattle.quad_lanes.specs.Capture.{capture};
ghost use Rattle.quad_lanes.specs.Pairs.{inverse};
ghost use Rattle.topology_stack.specs.Name.{IsName};
ghost use Rattle.c_border.specs.Places.{Tells};
ghost use Rattle.script_run.specs.Listed.{IsListed};
ghost use Rattle.script_c.specs.Answers.{TellsScript, HasCapture, IsTooLong, IsNoName};

use crate::fault::tell_stop;
use crate::record::ScriptFaultRecord;
use crate::script::MAX_SCRIPT;
use c_border::{NO_MEMORY, NO_NAME, TOO_LONG, tell_bytes};
use quad_lanes::capture_of;
use script_run::list_script;
use std::alloc::Global;
use topology_stack::{Name, OutOfMemory};

/// Tells the capture of a list.
fn tell_capture(alloc: Global, list: &[u32], place: &mut [u8], needed: &mut usize) -> u32
    ensures { Tells (λ text. text ≡ capture list.now) place.old place.new needed.old needed.new
        result }
{
    match capture_of(alloc, list) {
        Ok(text) => tell_bytes(text.as_slice(), place, needed),
        Err(_) => NO_MEMORY,
    }
}

/// Tells the capture of the tree of a script's node, or why there is none.
fn tell_list(
    alloc: Global,
    bytes: &[u8],
    name: &Name,
    place: &mut [u8],
    needed: &mut usize,
    fault: &mut ScriptFaultRecord,
) -> u32
    requires { length bytes.now ≤ 1048576 }
    ensures { TellsScript (HasCapture bytes.now name.now) (λ f. IsListed bytes.now name.now (Err f))
        place.old place.new needed.old needed.new fault.old fault.new result }
{
    match list_script(alloc, bytes, name) {
        Ok(list) => tell_capture(alloc, list.as_slice(), place, needed),
        Err(stop) => tell_stop(stop, fault),
    }
}

/// Tells the capture of the tree in which a script's node stands in the end: the self-ID packets that a
/// device records there. A name that no node may have is none.
#[unsafe(no_mangle)]
pub extern "C" fn busconf_capture(
    alloc: Global,
    bytes: &[u8],
    name: &[u8],
    place: &mut [u8],
    needed: &mut usize,
    fault: &mut ScriptFaultRecord,
) -> u32
    ensures answer { length bytes.now ≤ 1048576 → IsName name.now →
        TellsScript (HasCapture bytes.now name.now) (λ f. IsListed bytes.now name.now (Err f))
        place.old place.new needed.old needed.new fault.old fault.new result }
    ensures too_long { 1048576 < length bytes.now → IsName name.now →
        IsTooLong place.old place.new needed.old needed.new fault.old fault.new result }
    ensures no_name { (IsName name.now → ⊥) →
        IsNoName place.old place.new needed.old needed.new fault.old fault.new result }
{
    let Some(name) = Name::new(name) else {
        return NO_NAME;
    };
    if bytes.len() > MAX_SCRIPT {
        return TOO_LONG;
    }
    tell_list(alloc, bytes, &name, place, needed, fault)
}
