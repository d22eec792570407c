//! What an input comes to.
ghost use Rattle.std.specs.Prelude.{◌≡◌, IfOk};
ghost use Rattle.capture_import.specs.Answer.{IfFault};
ghost use Rattle.capture_import.specs.Import.{Names, IsRefused, IsImport};

use crate::bytes::{named_bytes, whole_quads};
use crate::fault::ImportStop;
use crate::line::refusal_line;
use crate::list::{layout_of, named_list};
use crate::outcome::Outcome;
use crate::taken::Taken;
use crate::text::container_of;
use quad_lanes::{QuadList, capture_of};
use std::alloc::Global;
use topology_stack::OutOfMemory;

/// A list of packets, and what the input was taken for that names it.
#[derive(Debug, Drop)]
struct Found {
    taken: Taken,
    list: QuadList,
}

/// The list that an input names, or why it names none.
fn found_in(alloc: Global, input: &[u8]) -> Result<Found, ImportStop>
    ensures found { IfOk result (λ found. Names input.now found.taken found.list) }
    ensures refused { IfFault result (λ f. IsRefused input.now f) }
{
    let container = container_of(input);
    let bytes = named_bytes(alloc, container, input)?;
    let quads = whole_quads(alloc, &bytes)?;
    let layout = layout_of(quads.as_slice());
    let (list, order) = named_list(alloc, layout, quads.as_slice())?;
    let taken = Taken {
        container,
        layout,
        order,
    };
    Ok(Found { taken, list })
}

/// What is written of an input.
#[derive(Debug, Drop)]
pub(crate) struct Import {
    pub(crate) text: Vec<u8>,
    pub(crate) outcome: Outcome,
}

/// What is written of an input, and what it comes to.
pub(crate) fn import_of(alloc: Global, input: &[u8]) -> Result<Import, OutOfMemory>
    ensures { IfOk result (λ import. IsImport input.now import.text.items import.outcome) }
{
    match found_in(alloc, input) {
        Ok(found) => Ok(Import {
            text: capture_of(alloc, found.list.as_slice())?,
            outcome: Outcome::Written(found.taken),
        }),
        Err(ImportStop::Fault(fault)) => Ok(Import {
            text: refusal_line(alloc, fault)?,
            outcome: Outcome::Refused(fault),
        }),
        Err(ImportStop::Memory(error)) => Err(error),
    }
}
