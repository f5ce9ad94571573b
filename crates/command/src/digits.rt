// Numbers and bytes from the digits of a word.
ghost use Rattle.std.specs.Prelude.{◌≡◌, ◌*◌, ◌+◌, ◌/◌, ◌%◌, min, ◌++◌, length, take, drop, if◌then◌else◌, nat_lt};
ghost use Rattle.command.specs.Digits.{digit_of, all_digits, number_of, are_bytes, bytes_of};

// The value of a hexadecimal digit of either case.
#[tactic(auto, unfolding(crate::specs::Digits::digit_of))]
fn digit(b: u8) -> Option<u8>
    ensures { result ≡ (if nat_lt (digit_of b) 16 then Some (digit_of b) else None) }
{
    match b {
        b'0'..=b'9' => Some(b - b'0'),
        b'A'..=b'F' => Some(b - b'A' + 10),
        b'a'..=b'f' => Some(b - b'a' + 10),
        _ => None,
    }
}

// The number with a decimal digit more behind it, which stops at its type's largest.
fn longer(value: u16, b: u8) -> Option<u16>
    ensures { result ≡ (if nat_lt (digit_of b) 10 then Some (min 65535 (10 * value + digit_of b)) else None) }
{
    let digit = digit(b).filter(|d| *d < 10)?;
    Some(value.saturating_mul(10).saturating_add(u16::from(digit)))
}

pub(crate) fn decimal(text: &[u8]) -> Option<u16>
    ensures { result ≡ number_of text.now }
{
    if text.is_empty() {
        return None;
    }
    let mut value = 0;
    for b in text {
        value = longer(value, *b)?;
    }
    Some(value)
}

// The number as a byte, which stops at 255.
pub(crate) fn narrow(x: u16) -> u8
    ensures { result ≡ min 255 x }
{
    u8::try_from(x).unwrap_or(u8::MAX)
}

fn are_hexadecimal(text: &[u8]) -> bool
    ensures { result ≡ all_digits 16 text.now }
{
    text.iter().all(|b| digit(*b).is_some())
}

// Whether the text is hexadecimal digits, two a byte.
pub(crate) fn are_bytes(text: &[u8]) -> bool
    ensures { result ≡ are_bytes text.now }
{
    text.len() % 2 == 0 && are_hexadecimal(text)
}

// The byte of two digits, where any other byte counts as 0.
#[tactic(auto, using(crate::proofs::Scans::digit_or_zero))]
fn pair(high: u8, low: u8) -> u8
    ensures { result ≡ digit_of high % 16 * 16 + digit_of low % 16 }
{
    digit(high).unwrap_or(0) * 16 + digit(low).unwrap_or(0)
}

// The bytes of hexadecimal digits, two a byte, at the front of out, as many as it has room for.
pub(crate) fn put_bytes(text: &[u8], out: &mut [u8]) -> usize
    ensures { (result ≡ min (length text.now / 2) (length out.old)) × (out.new ≡ take result (bytes_of text.now) ++ drop result out.old) }
{
    let n = out.len().min(text.len() / 2);
    for (i, byte) in out[..n].iter_mut().enumerate() {
        *byte = pair(text[2 * i], text[2 * i + 1]);
    }
    n
}
