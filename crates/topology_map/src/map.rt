//! The topology map.
ghost use Rattle.std.specs.Prelude.{◌≡◌, ◌≤◌, ℕ, List, length, Err, IfOk, IsOkAnd, MatchResult};
ghost use Rattle.topology_stack.specs.Tree.{walk, emits};
ghost use Rattle.self_id.specs.Group.{node_count};
ghost use Rattle.topology_map.specs.Map.{IsMap, Refused};
ghost use Rattle.topology_map.specs.codings.Told.{TellsNodes};
ghost use Rattle.topology_map.specs.Answer.{IfFault, UnlessMemory};
ghost use Rattle.topology_map.specs.declared.fault.ImageFault.{ImageFault};

use crate::crc::crc16;
use crate::fault::{ImageFault, OutOfMemory};
use crate::sealed::seal;
use phy_packet::is_packet_zero;
use quad_lanes::QuadList;
use std::alloc::Global;
use topology_stack::{BusTree, write_tree};

/// What an image of a topology map says.
#[derive(Debug, Drop)]
pub struct MapParts {
    /// How many times the bus was configured.
    pub generation: u32,
    /// The number of nodes.
    pub nodes: u16,
    /// The first quadlets of the nodes' self-ID packets.
    pub list: QuadList,
}

/// The image of a tree's topology map: length and CRC; the generation; the number of nodes (16 bits)
/// and of self-ID quadlets (16 bits); the self-ID quadlets. `read_image` gives these parts back.
pub fn image(alloc: Global, tree: &BusTree, generation: u32) -> Result<QuadList, OutOfMemory>
    ensures { IfOk result (λ quads.
        IsMap generation (length (walk tree.now)) (emits tree.now) quads) }
{
    let nodes = tree.len();
    let list = write_tree(alloc, tree)?;
    let mut body = QuadList::new(alloc);
    body.push(generation)?;
    body.push(u32::from(nodes) * 0x1_0000 + list.as_slice().len() as u32)?;
    body.extend_from_slice(list.as_slice())?;
    seal(alloc, body.as_slice())
}

/// How many packet zeros a list has.
fn node_count(list: &[u32]) -> usize
    ensures value { result ≡ node_count list.now }
    ensures few { result ≤ length list.now }
{
    list.iter().filter(|quad| is_packet_zero(**quad)).count()
}

/// The number of nodes that an image tells, or its fault.
fn nodes_of(quads: &[u32]) -> Result<u16, ImageFault>
    ensures { MatchResult result (TellsNodes quads.now) (Refused quads.now) }
{
    if quads.len() < 3 || (quads[0] >> 16) as usize != quads.len() - 1 {
        return Err(ImageFault::Length { found: quads.len() });
    }
    let kept = (quads[0] % 0x1_0000) as u16;
    let computed = crc16(&quads[1..]);
    if kept != computed {
        return Err(ImageFault::Crc { kept, computed });
    }
    let list = &quads[3..];
    let nodes = node_count(list);
    let found = (nodes as u32) * 0x1_0000 + list.len() as u32;
    if quads[2] != found {
        return Err(ImageFault::Counts {
            kept: quads[2],
            found,
        });
    }
    Ok(nodes as u16)
}

/// Reads the image of a topology map. `quads` is the whole image, its first quadlet with length and
/// CRC included.
///
/// The faults are looked for in the order `Length`, `Crc`, `Counts`. The packets of the list aren't
/// read: `read_tree` tells whether they are those of a bus.
pub fn read_image(alloc: Global, quads: &[u32]) -> Result<MapParts, ImageFault>
    // The quadlets are the image of the parts that are answered.
    ensures found { IfOk result (λ parts. IsMap parts.generation parts.nodes parts.list quads.now) }
    // The parts of an image are answered, unless memory ran out.
    ensures only { (generation nodes : ℕ) (list : List ℕ) →
        IsMap generation nodes list quads.now →
        UnlessMemory result (λ r. IsOkAnd r (λ parts.
        (parts.generation ≡ generation) × (parts.nodes ≡ nodes) × (parts.list ≡ list))) }
    // A fault that is answered is the quadlets', and their fault is answered, which takes no memory.
    ensures refused { IfFault result (λ f. Refused quads.now f) }
    ensures exact { (f : ImageFault) → Refused quads.now f → result ≡ Err f }
{
    let nodes = nodes_of(quads)?;
    let mut list = QuadList::new(alloc);
    list.extend_from_slice(&quads[3..])?;
    Ok(MapParts {
        generation: quads[1],
        nodes,
        list,
    })
}
