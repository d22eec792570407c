//! The records of a dump.
ghost use Rattle.std.specs.Prelude.{◌≡◌, ◌+◌, ◌++◌, ◌≤◌, true, length, drop, IfSome};
ghost use Rattle.std.specs.Int.{w32, to_le_bytes};
ghost use Rattle.nosy_dump.specs.Record.{quad_at, record_bytes, is_size, is_self_id, record_of, size_of};

use quad_lanes::QuadList;

/// The most bytes of a record.
const MAX_RECORD: u32 = 65536;

/// What a record of a dump tells.
#[derive(Clone, Copy, Debug, PartialEq, Eq)]
pub enum Record {
    /// A bus reset: a time stamp alone, in microseconds.
    Reset { time: u32 },
    /// A self-ID packet whose second quadlet is the inverse of its first.
    SelfId { quad: u32 },
    /// Another packet, or a PHY packet that was damaged on its way.
    Other,
}

/// A bus reset of a dump.
#[derive(Debug, Drop)]
pub struct DumpReset {
    /// The place of its record in the dump, from 0.
    pub byte: u64,
    /// Its time stamp, in microseconds.
    pub time: u32,
    /// The quadlets of the self-ID packets up to the next reset.
    pub list: QuadList,
}

/// Why a dump can't be read on at a record.
#[derive(Clone, Copy, Debug, PartialEq, Eq)]
pub enum DumpFault {
    /// The dump ends within the record.
    Cut,
    /// A record can't have this length.
    BadLength { size: u32 },
}

/// The quadlet at a byte, the lowest byte first.
fn quad_at(bytes: &[u8], at: usize) -> u32
    requires { at + 4 ≤ length bytes.now }
    ensures { result ≡ quad_at bytes.now at }
{
    u32::from_le_bytes([bytes[at], bytes[at + 1], bytes[at + 2], bytes[at + 3]])
}

/// Whether these are a self-ID packet and its inverse.
fn is_self_id(quad: u32, second: u32) -> bool
    ensures { result ≡ is_self_id quad second }
{
    second == !quad && quad / 0x4000_0000 == 2
}

/// What the bytes of a record tell.
#[tactic(auto, unfolding(crate::specs::Record::record_of))]
pub fn record_of(bytes: &[u8]) -> Record
    ensures { result ≡ record_of bytes.now }
{
    if bytes.len() == 4 {
        return Record::Reset {
            time: quad_at(bytes, 0),
        };
    }
    if bytes.len() == 16 && is_self_id(quad_at(bytes, 4), quad_at(bytes, 8)) {
        return Record::SelfId {
            quad: quad_at(bytes, 4),
        };
    }
    Record::Other
}

/// The length of the record that these bytes begin, where it is there.
pub(crate) fn size_of(bytes: &[u8]) -> Option<u32>
    ensures size { result ≡ size_of bytes.now }
    ensures bytes { IfSome result (λ size. bytes.now ≡ to_le_bytes w32 size ++ drop 4 bytes.now) }
{
    match bytes {
        [a, b, c, d, ..] => Some(u32::from_le_bytes([*a, *b, *c, *d])),
        _ => None,
    }
}

/// The record that these bytes begin with, where it is whole.
pub(crate) fn front_record(bytes: &[u8]) -> Option<&[u8]>
    ensures front { IfSome result (λ whole. bytes.now
        ≡ record_bytes whole.now ++ drop (4 + length whole.now) bytes.now) }
    ensures sized { IfSome result (λ whole. is_size (length whole.now) ≡ true) }
{
    let size = size_of(bytes)?;
    if !is_size(size) {
        return None;
    }
    let end = size as usize + 4;
    if bytes.len() < end {
        return None;
    }
    Some(&bytes[4..end])
}

/// Whether a record may have so many bytes.
pub(crate) fn is_size(size: u32) -> bool
    ensures { result ≡ is_size size }
{
    size > 0 && size <= MAX_RECORD && size % 4 == 0
}
