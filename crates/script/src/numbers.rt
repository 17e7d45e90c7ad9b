// Decimal numbers of 32 bits, read from a position on.
ghost use Rattle.std.specs.Prelude.{◌≡◌, drop};
ghost use Rattle.script.specs.Reading.{digits_then, number_then};

// Digits, perhaps none, up to the byte that ends the field: their value and the position after that byte.
#[tactic(auto, using(crate::proofs::Decimals::digits_left))]
fn digits_then(s: &[u8], at: usize, end: u8) -> Option<(u32, usize)>
    ensures { result ≡ digits_then end (drop at s.now) at 0 }
{
    let mut value = 0u32;
    // stays: the answer is a position of the whole script, which an iterator over the bytes from `at` on would not give
    for k in at..s.len() {
        let c = s[k];
        if c == end {
            return Some((value, k + 1));
        }
        if !c.is_ascii_digit() {
            return None;
        }
        value = value.checked_mul(10)?.checked_add(u32::from(c - b'0'))?;
    }
    None
}

// The field at a position, a digit or more and then the byte that ends it: its value and the position after it.
#[tactic(auto, using(crate::proofs::Decimals::fields))]
pub fn number_then(s: &[u8], at: usize, end: u8) -> Option<(u32, usize)>
    ensures { result ≡ number_then s.now at end }
{
    if !s.get(at)?.is_ascii_digit() {
        return None;
    }
    digits_then(s, at, end)
}
