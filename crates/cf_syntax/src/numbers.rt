// Numbers by their text.
ghost use Rattle.std.specs.Prelude.{◌≡◌, ◌-◌, ◌^◌, ◌≤◌, min, length, if◌then◌else◌, Some, None, nat_le, Option, ℤ};
ghost use Rattle.cf_syntax.specs.Numbers.{decimal, natlit_of, signed, whole_of, fits_word, in_range};

use cf_grammar::Class;

// The number of these digits, or the greatest of the type where it is greater.
fn decimal(digits: &[u8]) -> u64
    ensures { result ≡ min (decimal 0 digits.now) (2 ^ 64 - 1) }
{
    let mut n: u64 = 0;
    for digit in digits {
        n = n
            .saturating_mul(10)
            .saturating_add(u64::from(digit.saturating_sub(b'0')));
    }
    n
}

// A number with its sign apart, where it fits.
fn signed(minus: bool, n: u64) -> Option<i64>
    ensures { result ≡ (if fits_word (signed minus n) then Some (signed minus n) else None) }
{
    if minus {
        if n < 1 << 63 {
            Some(-(n as i64))
        } else if n == 1 << 63 {
            Some(i64::MIN)
        } else {
            None
        }
    } else if n < 1 << 63 {
        Some(n as i64)
    } else {
        None
    }
}

// A whole number by its text, where it is within its range.
pub(crate) fn whole(text: &[u8]) -> Option<i64>
    ensures { result ≡ (if fits_word (whole_of text.now) then Some (whole_of text.now) else None) }
{
    if text.is_empty() {
        return Some(0);
    }
    if text[0] == b'-' {
        signed(true, decimal(&text[1..]))
    } else {
        signed(false, decimal(text))
    }
}

// A Nat literal by its text, where it is within its range.
pub(crate) fn natlit(text: &[u8]) -> Option<u32>
    ensures { result ≡ (if nat_le (natlit_of text.now) 64 then Some (natlit_of text.now) else None) }
{
    if text.is_empty() {
        return Some(0);
    }
    let n = decimal(&text[1..]);
    if n <= 64 { Some(n as u32) } else { None }
}

// Whether a token of this class is no number out of its range.
pub(crate) fn is_in_range(class: Class, text: &[u8]) -> bool
    ensures { result ≡ in_range class text.now }
{
    match class {
        Class::Whole => whole(text).is_some(),
        Class::NatLit => natlit(text).is_some(),
        _ => true,
    }
}
