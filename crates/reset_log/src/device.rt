//! The texts of a card: its number, or the name of its device.
ghost use Rattle.std.specs.Prelude.{◌≡◌, ◌≤◌, ◌-◌, ◌++◌, OnOk};
ghost use Rattle.reset_log.specs.Device.{domain_digits, device_text, card_field};

use log_line::DEVICES;
use std::alloc::AllocError;
use topology_stack::put_hex;
use view_text::put_field;

/// With how many digits a domain is written.
fn domain_digits(domain: u32) -> u32
    ensures value { result ≡ domain_digits domain }
    ensures few { result ≤ 8 }
{
    match domain {
        0..0x1_0000 => 4,
        0x1_0000..0x10_0000 => 5,
        0x10_0000..0x100_0000 => 6,
        0x100_0000..0x1000_0000 => 7,
        _ => 8,
    }
}

/// Appends the name of a device.
#[tactic(auto, unfolding(crate::specs::Device::device_text))]
pub(crate) fn put_device(out: &mut Vec<u8>, device: u64) -> Result<(), AllocError>
    ensures { OnOk result (out.new.items ≡ out.old.items ++ device_text device) }
{
    let domain = (device / 16_777_216 % 4_294_967_296) as u32;
    put_hex(out, domain_digits(domain), domain)?;
    out.push(b':')?;
    put_hex(out, 2, (device / 65_536 % 256) as u32)?;
    out.push(b':')?;
    put_hex(out, 2, (device / 256 % 256) as u32)?;
    out.push(b'.')?;
    put_hex(out, 1, (device % 256) as u32)?;
    Ok(())
}

/// Appends a word and a card behind it.
pub(crate) fn put_card(out: &mut Vec<u8>, word: &[u8], card: u64) -> Result<(), AllocError>
    ensures { OnOk result (out.new.items ≡ out.old.items ++ card_field word.now card) }
{
    if card < DEVICES {
        return put_field(out, word, card);
    }
    out.extend_from_slice(word)?;
    put_device(out, card - DEVICES)
}
