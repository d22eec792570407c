//! The node that the card itself is on its bus.
ghost use Rattle.std.specs.Prelude.{◌≡◌};
ghost use Rattle.log_line.specs.Local.{local_of};

/// The node of a node ID: its last six bits. 63 is no node's.
pub(crate) fn local_of(id: Option<u32>) -> Option<u8>
    ensures { result ≡ local_of id }
{
    let node = (id? % 64) as u8;
    if node == 63 { None } else { Some(node) }
}
