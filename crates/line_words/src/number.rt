//! The number that digits spell.
ghost use Rattle.std.specs.Prelude.{◌≡◌, ◌≤◌, ◌^◌, ◌<◌};
ghost use Rattle.line_words.specs.Digits.{of_digits};
ghost use Rattle.line_words.specs.codings.Going.{digits_from};

/// The number that these digits of the base spell. `None` where one of them is no digit of the
/// base, or where the number doesn't fit.
fn value(digits: &[u8], base: u32) -> Option<u32>
    requires least { 2 ≤ base }
    requires most { base ≤ 16 }
    ensures { result ≡ digits_from base 0 digits.now }
{
    let mut number = 0u32;
    for c in digits {
        let digit = char::from(*c).to_digit(base)?;
        number = number.checked_mul(base)?.checked_add(digit)?;
    }
    Some(number)
}

#[tactic(auto, using(crate::proofs::Digits::read_digits, crate::proofs::Digits::too_many, crate::proofs::Digits::no_digits))]
/// The number that these digits of a base from 2 to 16 spell, letters of either case. `None` exactly
/// where there is none or there are more than `most`, where one of them is no digit of the base, or
/// where the number is 2^32 or more.
pub fn of_digits(digits: &[u8], base: u32, most: usize) -> Option<u32>
    requires least { 2 ≤ base }
    requires most { base ≤ 16 }
    ensures { result ≡ of_digits base most digits.now }
{
    if digits.is_empty() || digits.len() > most {
        return None;
    }
    value(digits, base)
}
