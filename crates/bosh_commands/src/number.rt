// A number of 64 bits in plain decimal.
ghost use Rattle.std.specs.Prelude.{◌≡◌};
ghost use Rattle.bosh_types.specs.Decimal.{positive_of};
ghost use Rattle.bosh_commands.specs.Number.{number_of, within_64};

/// The number that the text writes in plain decimal, without a sign or a leading zero: `None` exactly where the text is none, or
/// writes one above 18446744073709551615.
#[tactic(auto, unfolding(crate::specs::Number::number_of))]
pub fn read_number(text: &[u8]) -> Option<u64>
    ensures { result ≡ number_of text.now }
{
    if text == b"0".as_slice() {
        return Some(0);
    }
    positive_number(text)
}

fn positive_number(text: &[u8]) -> Option<u64>
    ensures { result ≡ within_64 (positive_of text.now) }
{
    match text {
        [b'1'..=b'9', ..] => {}
        _ => return None,
    }
    let mut value = 0u64;
    for digit in text {
        if !digit.is_ascii_digit() {
            return None;
        }
        let tens = value.checked_mul(10)?;
        value = tens.checked_add(u64::from(*digit - b'0'))?;
    }
    Some(value)
}
