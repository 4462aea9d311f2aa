//! Numbers as they are written: whole, or with hundredths after a point.
ghost use Rattle.std.specs.Prelude.{◌≡◌, ◌+◌, ◌-◌, ◌*◌, ◌&&◌, Some, None, nat_lt};
ghost use Rattle.std.specs.Char.{is_ascii_digit};
ghost use Rattle.raise.specs.Rules.{pick};
ghost use Rattle.text.specs.Words.{number_of, hundredths, in_hundredths};

/// What a digit stands for, if the byte is one.
fn digit(byte: u8) -> Option<u32>
    ensures { result ≡ pick (is_ascii_digit byte) (Some (byte - 48)) None }
{
    byte.is_ascii_digit().then(|| u32::from(byte - b'0'))
}

/// The number with one digit more behind it, if the byte is one and there is room.
fn with_digit(value: u32, byte: u8) -> Option<u32>
    ensures { result ≡ pick (is_ascii_digit byte && nat_lt (10 * value + (byte - 48)) 4294967296) (Some (10 * value + (byte - 48))) None }
{
    value.checked_mul(10)?.checked_add(digit(byte)?)
}

/// The number that digits write, if there are any and it has 32 bits.
pub fn read_number(word: &[u8]) -> Option<u32>
    ensures { result ≡ number_of word.now }
{
    if word.is_empty() {
        return None;
    }
    let mut value = 0u32;
    for byte in word {
        value = with_digit(value, *byte)?;
    }
    Some(value)
}

/// What one digit or two write after a point.
pub(crate) fn hundredths(digits: &[u8]) -> Option<u32>
    ensures { result ≡ hundredths digits.now }
{
    match digits {
        [tenths] => Some(10 * digit(*tenths)?),
        [tenths, hundredths] => Some(10 * digit(*tenths)? + digit(*hundredths)?),
        _ => None,
    }
}

/// A whole number and hundredths, in hundredths. What has more than 32 bits counts as the greatest that has not: no rate in range is
/// near it.
pub(crate) fn in_hundredths(whole: u32, part: u32) -> u32
    ensures { result ≡ in_hundredths whole part }
{
    whole.saturating_mul(100).saturating_add(part)
}
