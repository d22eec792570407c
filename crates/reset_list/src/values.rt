//! What is shown of a reset's list for programs: members of an object.
ghost use Rattle.std.specs.Prelude.{◌≡◌, ◌++◌, IfOk};
ghost use Rattle.json.specs.Json.{Members};
ghost use Rattle.json.specs.Tree.{members_tokens};
ghost use Rattle.reset_list.specs.Json.{IsListTold};

use crate::hear::hear;
use bus_json::{JsonText, put_refusal, put_tree};
use capture_reading::CaptureStop;
use log_line::Origin;
use self_id::Standard;
use std::alloc::{AllocError, Global};
use topology_stack::BusTree;

/// Writes what a list is heard as by a standard, as the last members of an object, and ends it: the members
/// that `busview json` writes of a bus, or why the list is refused. It answers the tree that the list is
/// heard as; `None` where it is refused.
pub fn put_list(
    alloc: Global,
    out: &mut JsonText,
    standard: Standard,
    origin: Origin,
    list: &[u32],
) -> Result<Option<BusTree>, AllocError>
    ensures { IfOk result (λ heard. (members : Members)
        × IsListTold standard origin list.now members heard
        × (out.new ≡ out.old ++ members_tokens members)) }
{
    match hear(alloc, standard, origin, list) {
        Ok(tree) => {
            put_tree(out, &tree, &[])?;
            Ok(Some(tree))
        }
        Err(CaptureStop::Fault(fault)) => {
            put_refusal(out, fault)?;
            Ok(None)
        }
        Err(CaptureStop::Memory(error)) => Err(error),
    }
}
