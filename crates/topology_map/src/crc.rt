//! The CRC of quadlets.
ghost use Rattle.std.specs.Prelude.{◌≡◌, ◌<◌, ◌^◌, ℕ, List};
ghost use Rattle.topology_map.specs.Crc.{bits_of, IsCrc};
ghost use Rattle.topology_map.specs.codings.Register.{after_bits};

/// What a register of zeros holds after the bits of this byte, the highest first.
fn leaves(byte: u8) -> u16
    ensures { bits_of 16 result ≡ after_bits (bits_of 16 0) (bits_of 8 byte) }
{
    let sum = u16::from(byte ^ (byte >> 4));
    (sum << 12) ^ (sum << 5) ^ sum
}

/// The register after the bits of one more byte: what falls out of it meets them, and what their sum
/// leaves is added to the rest.
fn with_byte(crc: u16, byte: u8) -> u16
    ensures { bits_of 16 result ≡ after_bits (bits_of 16 crc) (bits_of 8 byte) }
{
    (crc << 8) ^ leaves((crc >> 8) as u8 ^ byte)
}

/// The register after the bits of one more quadlet.
fn with_quad(before: u16, quad: u32) -> u16
    ensures { bits_of 16 result ≡ after_bits (bits_of 16 before) (bits_of 32 quad) }
{
    let first = with_byte(before, (quad >> 24) as u8);
    let second = with_byte(first, ((quad >> 16) % 256) as u8);
    let third = with_byte(second, ((quad >> 8) % 256) as u8);
    with_byte(third, (quad % 256) as u8)
}

/// The CRC of these quadlets (IEEE Std 1212): the remainder of their bits, the highest first and
/// followed by sixteen zero bits, divided by x^16 + x^12 + x^5 + 1. The register starts at 0, and
/// nothing is inverted. It takes no memory.
pub fn crc16(quads: &[u32]) -> u16
    ensures remainder { IsCrc quads.now result }
    // No other number is the remainder.
    ensures only { (crc : ℕ) → IsCrc quads.now crc → crc ≡ result }
{
    let mut crc = 0;
    for quad in quads {
        crc = with_quad(crc, *quad);
    }
    crc
}
