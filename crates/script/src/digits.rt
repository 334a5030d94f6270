ghost use Rattle.std.specs.Prelude.{◌≡◌, ◌+◌, ◌-◌, ◌*◌, if◌then◌else◌, None};
ghost use Rattle.script.specs.Numbers.{is_digit, fitting, number_of};

// A number with one more digit, where the byte is a digit and the number fits.
fn with_digit(n: u64, byte: u8) -> Option<u64>
    ensures { result ≡ (if is_digit byte then fitting (n * 10 + (byte - 48)) else None) }
{
    if byte < b'0' || byte > b'9' {
        return None;
    }
    n.checked_mul(10)?.checked_add(u64::from(byte - b'0'))
}

/// The number that a word writes in decimal.
pub(crate) fn number(word: &[u8]) -> Option<u64>
    ensures { result ≡ number_of word.now }
{
    if word.is_empty() {
        return None;
    }
    let mut n = 0;
    for byte in word {
        n = with_digit(n, *byte)?;
    }
    Some(n)
}
