//! A card as the drivers' own log names it: its device on the PCI bus.
ghost use Rattle.std.specs.Prelude.{◌≡◌, length};
ghost use Rattle.log_line.specs.Device.{placed, placed_in, device_of};

use crate::word::Word;
use line_words::of_digits;

/// The first number of a card that is a device.
pub const DEVICES: u64 = 4_294_967_296;

/// The number of the card that is this device.
fn placed(
    domain: Option<u32>,
    bus: Option<u32>,
    slot: Option<u32>,
    function: Option<u32>,
) -> Option<u64>
    ensures { result ≡ placed domain bus slot function }
{
    let domain = u64::from(domain?);
    let bus = u64::from(bus?);
    let slot = u64::from(slot?);
    let function = u64::from(function?);
    Some(DEVICES + (domain * 16_777_216 + (bus * 65_536 + (slot * 256 + function))))
}

/// The card of a domain and of the nine characters that stand behind it: `:05:00.0:`.
fn placed_in(domain: &[u8], place: &[u8]) -> Option<u64>
    requires { length place.now ≡ 9 }
    ensures { result ≡ placed_in domain.now place.now }
{
    if place[0] != b':' || place[3] != b':' || place[6] != b'.' || place[8] != b':' {
        return None;
    }
    placed(
        of_digits(domain, 16, 8),
        of_digits(&place[1..][..2], 16, 2),
        of_digits(&place[4..][..2], 16, 2),
        of_digits(&place[7..][..1], 16, 1),
    )
}

/// The number of the card that a word names, where it names one: `0000:05:00.0:`, or with a domain of up
/// to 8 digits.
#[tactic(auto, unfolding(crate::specs::Device::device_of))]
pub(crate) fn device_of(word: &Word) -> Option<u64>
    ensures { result ≡ device_of word.now }
{
    let name = word.as_bytes();
    if name.len() < 13 || name.len() > 17 {
        return None;
    }
    let end = name.len() - 9;
    placed_in(&name[..end], &name[end..])
}
