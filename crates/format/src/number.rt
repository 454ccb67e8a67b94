// Numbers as they are written.
ghost use Rattle.std.specs.Prelude.{◌≡◌};
ghost use Rattle.format.specs.Items.{numeral};

// The number that digits write, or none where it has a leading zero or is above 4294967294.
pub fn number(text: &[u8]) -> Option<u32>
    ensures { result ≡ numeral text.now }
{
    if text.len() > 1 && text[0] == b'0' {
        return None;
    }
    // no `parse`: the greatest number is refused too, and the text is bytes
    let mut n: u64 = 0;
    for digit in text {
        n = 10 * n + u64::from(digit.saturating_sub(b'0'));
        if n > 4294967294 {
            return None;
        }
    }
    Some(n as u32)
}
