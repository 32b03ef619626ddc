//! Bytes and numbers (the standard, 5.2.2).

ghost use Rattle.std.specs.Prelude.{◌≡◌, ℕ, ◌-◌, ◌*◌, ◌^◌, ◌<◌, ◌≤◌, IfOk, MatchResult, ◌∷◌, [], pos, ◌+ℤ◌, ◌*ℤ◌};
ghost use Rattle.wb_syntax.specs.Grammar.{unsigned_number, signed_number, index};
ghost use Rattle.wb_decode.specs.Reading.{Reading, IsSignedRange};

use crate::ends::Fault;

/// The first byte, and the bytes behind it.
pub fn first(bytes: &[u8]) -> Result<(u8, &[u8]), Fault>
    ensures { MatchResult result (λ x. (bytes.now ≡ x.0 ∷ x.1.now) × (x.0 < 256)) (λ fault. (bytes.now ≡ []) × (fault ≡ Fault.Malformed)) }
{
    match bytes {
        [] => Err(Fault::Malformed),
        [byte, rest @ ..] => Ok((*byte, rest)),
    }
}

// How many numbers so many bits can stand for.
fn numbers_of(bits: u32) -> u64
    requires { bits < 64 }
    ensures { result ≡ 2 ^ bits }
{
    1 << bits
}

// An unsigned number of so many bits.
fn unsigned(bits: u32, bytes: &[u8]) -> Result<(u32, &[u8]), Fault>
    requires { bits ≤ 32 }
    ensures reading { Reading (λ x. (x.0, x.1.now)) (unsigned_number bits) bytes.now result }
    ensures range { IfOk result (λ x. x.0 < 2 ^ bits) }
{
    let (byte, rest) = first(bytes)?;
    if byte < 128 {
        if u64::from(byte) < numbers_of(bits) {
            Ok((u32::from(byte), rest))
        } else {
            Err(Fault::Malformed)
        }
    } else if bits <= 7 {
        Err(Fault::Malformed)
    } else {
        let (high, rest) = unsigned(bits - 7, rest)?;
        Ok((u32::from(byte - 128) + 128 * high, rest))
    }
}

/// An index or a size: an unsigned number of 32 bits.
pub fn index(bytes: &[u8]) -> Result<(u32, &[u8]), Fault>
    ensures { Reading (λ x. (x.0, x.1.now)) index bytes.now result }
{
    unsigned(32, bytes)
}

// The low seven bits of a byte from 128 on, below the bits that follow.
fn below(byte: u8, high: i64) -> i64
    requires more { 128 ≤ byte }
    requires range { IsSignedRange 57 high }
    ensures { result ≡ (pos (byte - 128) +ℤ (pos 128 *ℤ high)) }
{
    i64::from(byte - 128) + 128 * high
}

// A signed number of so many bits.
fn signed(bits: u32, bytes: &[u8]) -> Result<(i64, &[u8]), Fault>
    requires least { 0 < bits }
    requires most { bits ≤ 64 }
    ensures reading { Reading (λ x. (x.0, x.1.now)) (signed_number bits) bytes.now result }
    ensures range { IfOk result (λ x. IsSignedRange bits x.0) }
{
    let (byte, rest) = first(bytes)?;
    if byte < 128 {
        let half = numbers_of(bits - 1);
        if byte < 64 {
            if u64::from(byte) < half {
                Ok((i64::from(byte), rest))
            } else {
                Err(Fault::Malformed)
            }
        } else if 128 - u64::from(byte) <= half {
            Ok((i64::from(byte) - 128, rest))
        } else {
            Err(Fault::Malformed)
        }
    } else if bits <= 7 {
        Err(Fault::Malformed)
    } else {
        let (high, rest) = signed(bits - 7, rest)?;
        Ok((below(byte, high), rest))
    }
}

/// A signed number of 32 bits.
pub fn signed_32(bytes: &[u8]) -> Result<(i32, &[u8]), Fault>
    ensures { Reading (λ x. (x.0, x.1.now)) (signed_number 32) bytes.now result }
{
    let (number, rest) = signed(32, bytes)?;
    Ok((number as i32, rest))
}

/// A signed number of 64 bits.
pub fn signed_64(bytes: &[u8]) -> Result<(i64, &[u8]), Fault>
    ensures { Reading (λ x. (x.0, x.1.now)) (signed_number 64) bytes.now result }
{
    signed(64, bytes)
}
