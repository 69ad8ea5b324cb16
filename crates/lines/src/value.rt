// Numbers in text.

// A number with one digit more.
fn longer(x: u64, c: u8, base: u64) -> Option<u64> {
    let d = u64::from(char::from(c).to_digit(16)?);
    if base <= d {
        return None;
    }
    x.checked_mul(base)?.checked_add(d)
}

fn value(s: &[u8], base: u64) -> Option<u64> {
    if s.is_empty() {
        return None;
    }
    s.iter().try_fold(0, |x, &c| longer(x, c, base))
}

// The number that digits are, decimal or hex, where it fits.
pub fn digits<T: TryFrom<u64>>(s: &[u8], base: u64) -> Option<T>
where
    T::Error: Drop,
{
    T::try_from(value(s, base)?).ok()
}

// The number that a text is: decimal, or hex after 0x.
pub fn number<T: TryFrom<u64>>(s: &[u8]) -> Option<T>
where
    T::Error: Drop,
{
    match s.strip_prefix(b"0x") {
        Some(hex) => digits(hex, 16),
        None => digits(s, 10),
    }
}
