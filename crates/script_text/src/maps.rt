//! The text of a tree's maps.
ghost use Rattle.std.specs.Prelude.{◌≡◌, ◌<◌, ◌∷◌, [], ◌++◌, IfOk, OnOk};
ghost use Rattle.script_text.specs.Maps.{quad_line, quad_lines, IsMapsText};

use quad_lanes::OutOfMemory;
use std::alloc::Global;
use topology_stack::{BusTree, put_hex};

/// Appends the line of a quadlet.
#[tactic(auto, unfolding(crate::specs::Maps::quad_line))]
fn put_quad(out: &mut Vec<u8>, quad: u32) -> Result<(), OutOfMemory>
    ensures { OnOk result (out.new.items ≡ out.old.items ++ quad_line quad) }
{
    put_hex(out, 8, quad)?;
    out.push(b'\n')?;
    Ok(())
}

/// Appends the lines of an image.
fn put_quads(out: &mut Vec<u8>, quads: &[u32]) -> Result<(), OutOfMemory>
    ensures { OnOk result (out.new.items ≡ out.old.items ++ quad_lines quads.now) }
{
    for quad in quads {
        put_quad(out, *quad)?;
    }
    Ok(())
}

/// The topology map and the speed map of a tree with this generation number, as images in eight
/// hexadecimal digits a quadlet, a quadlet a line, each behind a line that names it.
pub fn maps_text(alloc: Global, tree: &BusTree, generation: u32) -> Result<Vec<u8>, OutOfMemory>
    ensures { IfOk result (λ text. IsMapsText generation tree.now text.items) }
{
    let few = tree.len() <= 63;
    prove!(few);
    let topology = topology_map::image(alloc, tree, generation)?;
    let rows = speed_map::rows(alloc, tree)?;
    let speed = speed_map::image(alloc, &rows, generation)?;
    let mut out = Vec::new(alloc);
    out.extend_from_slice(b"topology\n")?;
    put_quads(&mut out, topology.as_slice())?;
    out.extend_from_slice(b"speed\n")?;
    put_quads(&mut out, speed.as_slice())?;
    Ok(out)
}
