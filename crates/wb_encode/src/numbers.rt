//! Numbers in their fewest bytes (LEB128; the standard, 5.2.2).
ghost use Rattle.std.specs.Prelude.{◌≡◌, ℕ, ◌-◌, ◌<◌, ◌^◌, OnOk, if◌then◌else◌};
ghost use Rattle.std.specs.Int.{complement_if};
ghost use Rattle.wb_syntax.specs.Grammar.{index, IsUnsigned, IsSigned};
ghost use Rattle.wb_encode.specs.Appended.{Written, IsWithin};

use std::alloc::AllocError;

/// Writes an unsigned number, whatever the bits of its type.
pub fn push_unsigned(out: &mut Vec<u8>, n: u32) -> Result<(), AllocError>
    ensures { OnOk result ((bits : ℕ) → n < 2 ^ bits → Written out.old.items out.new.items (λ bytes. IsUnsigned bits bytes n)) }
{
    if n < 128 {
        out.push(n as u8)?;
        Ok(())
    } else {
        out.push((128 + n % 128) as u8)?;
        push_unsigned(out, n / 128)?;
        Ok(())
    }
}

/// Writes a count of elements or bytes, and fails where it passes 32 bits.
pub fn push_length(out: &mut Vec<u8>, n: usize) -> Result<(), AllocError>
    ensures { OnOk result (Written out.old.items out.new.items (index.Is n)) }
{
    if n > 0xFFFF_FFFF {
        return Err(AllocError);
    }
    push_unsigned(out, n as u32)?;
    Ok(())
}

/// Writes a signed number, whatever the bits of its type.
pub fn push_signed(out: &mut Vec<u8>, z: i64) -> Result<(), AllocError>
    ensures { OnOk result ((bits : ℕ) → IsWithin (2 ^ (bits - 1)) z → Written out.old.items out.new.items (λ bytes. IsSigned bits bytes z)) }
{
    if z < 0 {
        push_magnitude(out, true, !z as u64)?;
    } else {
        push_magnitude(out, false, z as u64)?;
    }
    Ok(())
}

// Writes m, or its complement -(m + 1).
fn push_magnitude(out: &mut Vec<u8>, negative: bool, m: u64) -> Result<(), AllocError>
    ensures { OnOk result ((bits : ℕ) → m < 2 ^ (bits - 1) → Written out.old.items out.new.items (λ bytes. IsSigned bits bytes (complement_if negative m))) }
{
    let low = low_bits(negative, (m % 128) as u8);
    if m < 64 {
        out.push(low)?;
        Ok(())
    } else {
        out.push(128 + low)?;
        push_magnitude(out, negative, m / 128)?;
        Ok(())
    }
}

// Seven bits, or their complement.
fn low_bits(negative: bool, low: u8) -> u8
    requires { low < 128 }
    ensures { result ≡ (if negative then 127 - low else low) }
{
    if negative { 127 - low } else { low }
}
