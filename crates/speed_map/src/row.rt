//! Speeds, and parts of rows.
ghost use Rattle.std.specs.Prelude.{◌≡◌, ◌+◌, ◌*◌, ◌≤◌, ◌<◌, length, slice_get, min};
ghost use Rattle.speed_map.specs.Path.{node_speed};
ghost use Rattle.speed_map.specs.codings.Sweep.{Written};

use quad_lanes::min_row;
use self_id::SelfId;

/// The bytes of a row: one for each ID.
pub(crate) const ROW: usize = 64;

/// The speed code of a node. The code 3, which later standards use, counts as 2.
pub(crate) fn speed(node: &SelfId) -> u8
    ensures { result ≡ node_speed node.now }
{
    node.attrs.speed.min(2)
}

/// The number of a node's slots.
pub(crate) fn slots(node: &SelfId) -> u8
    ensures { result ≡ length node.now.ports }
{
    node.ports.as_slice().len() as u8
}

/// Writes a part of the row of node `to`, from the ID `low` to before `high`: at each place the
/// lesser of what the row of node `of` has there and `cap`.
pub(crate) fn copy_capped(rows: &mut [u8], of: usize, to: usize, low: usize, high: usize, cap: u8)
    requires of_row { 64 * of + 64 ≤ length rows.old }
    requires to_row { 64 * to + 64 ≤ length rows.old }
    requires part { low ≤ high }
    requires inside { high ≤ 64 }
    ensures { Written rows.old rows.new of to low high cap }
{
    let mut row = [0; ROW];
    min_row(&mut row, &rows[ROW * of..ROW * of + ROW], cap);
    rows[ROW * to + low..ROW * to + high].copy_from_slice(&row[low..high]);
}
