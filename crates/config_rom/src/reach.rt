//! Which blocks a ROM's root directory leads to.
ghost use Rattle.std.specs.Prelude.{◌≡◌, ◌↔◌, ◌+◌, ◌<◌, ◌≤◌, ℕ, Bool, true, IsTrue, length, slice_index, IfOk, IfErr, OnOk, Some, None};
ghost use Rattle.config_rom.specs.declared.fault.RomFault.{RomFault};
ghost use Rattle.config_rom.specs.declared.fault.RomFault.TheVariants.{Outside};
ghost use Rattle.config_rom.specs.declared.block.BlockKind.{BlockKind};
ghost use Rattle.config_rom.specs.declared.block.BlockKind.TheVariants.{Directory};
ghost use Rattle.config_rom.specs.Layout.{end_of};
ghost use Rattle.config_rom.specs.Block.{kind_of, value_of, IsReachable, HasFault, IsFirstFault};
ghost use Rattle.config_rom.specs.codings.Marks.{has_mark, AddsTargets, TakesPlace};

use crate::block::BlockKind;
use crate::fault::RomFault;
use crate::marks::{Marks, PLACES};

/// The kind of block that an entry leads to.
pub(crate) fn kind_of(quad: u32) -> Option<BlockKind>
    ensures { result ≡ kind_of quad }
{
    match quad >> 30 {
        2 => Some(BlockKind::Leaf),
        3 => Some(BlockKind::Directory),
        _ => None,
    }
}

/// The value of an entry.
pub(crate) fn value_of(quad: u32) -> u32
    ensures { result ≡ value_of quad }
{
    quad % 0x100_0000
}

/// The place behind the block at a place.
pub(crate) fn end_of(quads: &[u32], at: usize) -> usize
    requires { at < length quads.now }
    ensures value { result ≡ end_of quads.now at }
    ensures behind { at < result }
{
    at + 1 + (quads[at] >> 16) as usize
}

/// Refuses a block that isn't whole.
fn check_whole(quads: &[u32], at: usize) -> Result<(), RomFault>
    requires { at < 256 }
    ensures ok { OnOk result (end_of quads.now at ≤ length quads.now) }
    ensures err { IfErr result (λ f. (f ≡ Outside at) × (length quads.now < end_of quads.now at)) }
{
    if at >= quads.len() || quads.len() < end_of(quads, at) {
        return Err(RomFault::Outside { at });
    }
    Ok(())
}

/// Marks the targets of a directory's entries. It refuses the first entry that leads to itself.
fn add_targets(quads: &[u32], at: usize, marks: &mut Marks) -> Result<(), RomFault>
    requires few { length quads.now ≤ 256 }
    requires whole { end_of quads.now at ≤ length quads.now }
    ensures ok { OnOk result (AddsTargets quads.now at (end_of quads.now at) marks.old marks.new) }
    ensures err { IfErr result (HasFault quads.now Directory at) }
{
    for entry in at + 1..end_of(quads, at) {
        if let Some(kind) = kind_of(quads[entry]) {
            let value = value_of(quads[entry]) as usize;
            if value == 0 {
                return Err(RomFault::SelfTarget { at: entry });
            }
            marks.add(kind, entry + value);
        }
    }
    Ok(())
}

/// Takes the blocks at a place: refuses one with a fault, and marks what a directory leads to.
fn take_place(quads: &[u32], at: usize, marks: &mut Marks) -> Result<(), RomFault>
    requires few { length quads.now ≤ 256 }
    requires place { at < 256 }
    ensures ok { OnOk result (TakesPlace quads.now at marks.old marks.new) }
    ensures err { IfErr result (λ f. (k : BlockKind) × (has_mark marks.old k at ≡ true)
        × HasFault quads.now k at f) }
{
    let directory = marks.has(BlockKind::Directory, at);
    if directory || marks.has(BlockKind::Leaf, at) {
        check_whole(quads, at)?;
    }
    if directory {
        add_targets(quads, at, marks)?;
    }
    Ok(())
}

/// The blocks that are reached from the root directory, or the first fault of one.
pub(crate) fn reach(quads: &[u32], root: usize) -> Result<Marks, RomFault>
    requires few { length quads.now ≤ 256 }
    requires place { root < 256 }
    ensures reached { IfOk result (λ m. (k : BlockKind) (p : ℕ) → IsReachable quads.now root k p →
        (p < 256) × (has_mark m k p ≡ true)) }
    ensures only { IfOk result (λ m. (k : BlockKind) (p : ℕ) → p < 256 →
        has_mark m k p ≡ true → IsReachable quads.now root k p) }
    ensures faultless { IfOk result (λ m. (k : BlockKind) (p : ℕ) → IsReachable quads.now root k p →
        (f : RomFault) → HasFault quads.now k p f → ⊥) }
    ensures err { IfErr result (IsFirstFault quads.now root) }
{
    let mut marks = Marks::new();
    marks.add(BlockKind::Directory, root);
    for at in 0..PLACES {
        take_place(quads, at, &mut marks)?;
    }
    match marks.beyond() {
        Some(at) => Err(RomFault::Outside { at }),
        None => Ok(marks),
    }
}
