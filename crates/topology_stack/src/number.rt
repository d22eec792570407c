//! A number in a text, in decimal or hexadecimal digits.
ghost use Rattle.std.specs.Prelude.{◌≡◌, ◌<◌, ◌≤◌, ◌++◌, OnOk, decimal};
ghost use Rattle.topology_stack.specs.Hex.{hex_digit, hex};

use quad_lanes::OutOfMemory;

/// Appends the decimal digits of a number below 100, without leading zeros.
#[inline(always)]
#[tactic(auto, using(crate::proofs::Digits::append_one, crate::proofs::Digits::append_two))]
fn put_two_digits(out: &mut Vec<u8>, n: u8) -> Result<(), OutOfMemory>
    requires { n < 100 }
    ensures { OnOk result (out.new.items ≡ out.old.items ++ decimal n) }
{
    if n < 10 {
        out.push(b'0' + n)?;
        return Ok(());
    }
    out.push(b'0' + n / 10)?;
    out.push(b'0' + n % 10)?;
    Ok(())
}

/// The same of any number.
#[inline(never)]
fn put_long(out: &mut Vec<u8>, n: u64) -> Result<(), OutOfMemory>
    ensures { OnOk result (out.new.items ≡ out.old.items ++ decimal n) }
{
    let text = n.to_string(*out.allocator())?;
    out.extend_from_slice(text.as_bytes())
}

/// Appends the decimal digits of a number, without leading zeros.
#[inline]
pub fn put_number(out: &mut Vec<u8>, n: u64) -> Result<(), OutOfMemory>
    ensures { OnOk result (out.new.items ≡ out.old.items ++ decimal n) }
{
    if n < 100 {
        return put_two_digits(out, n as u8);
    }
    put_long(out, n)
}

/// A hexadecimal digit in lower case.
fn hex_digit(value: u8) -> u8
    requires { value < 16 }
    ensures { result ≡ hex_digit value }
{
    if value < 10 { b'0' + value } else { 87 + value }
}

/// Appends the lowest so many hexadecimal digits of a number, at most 8, in lower case, with leading
/// zeros.
pub fn put_hex(out: &mut Vec<u8>, digits: u32, n: u32) -> Result<(), OutOfMemory>
    requires { digits ≤ 8 }
    ensures { OnOk result (out.new.items ≡ out.old.items ++ hex digits n) }
{
    for place in (0..digits).rev() {
        out.push(hex_digit(((n >> (4 * place)) % 16) as u8))?;
    }
    Ok(())
}
