//! Memory, and the numbers that it holds, the lowest byte first.

ghost use Rattle.std.specs.Prelude.{◌≡◌, ◌+◌, ◌*◌, ◌/◌, ◌<◌, ◌≤◌, ◌^◌, nat_le, length, take, drop, replicate, IfOk, IfSome};
ghost use Rattle.wb_syntax.specs.Execute.{number_of, bytes_of, overwrite, page};
ghost use Rattle.wb_state.specs.Bytes.{bytes_in, read_at, written_at, WritesTo};

use std::alloc::{AllocError, Global};
use std::marker::Model;

/// The bytes of a page (the standard, 4.2.8).
pub const PAGE: usize = 65_536;

/// How many bytes a load or a store has.
#[derive(Clone, Copy, Debug, PartialEq, Eq)]
pub enum Width {
    One,
    Two,
    Four,
    Eight,
}

impl Width {
    /// The number of bytes.
    #[inline(always)]
    pub fn bytes(self) -> usize
        ensures { result ≡ bytes_in self }
    {
        match self {
            Width::One => 1,
            Width::Two => 2,
            Width::Four => 4,
            Width::Eight => 8,
        }
    }
}

/// The byte at an index.
#[inline(always)]
fn byte(bytes: &[u8], at: usize) -> u64
    requires { at + 1 ≤ length bytes.now }
    ensures number { result ≡ number_of (take 1 (drop at bytes.now)) }
    ensures fits { result < 2 ^ 8 }
{
    u64::from(bytes[at])
}

/// The number in two bytes.
#[inline(always)]
#[tactic(auto, using(crate::proofs::Halves::read_two))]
fn two(bytes: &[u8], at: usize) -> u64
    requires { at + 2 ≤ length bytes.now }
    ensures number { result ≡ number_of (take 2 (drop at bytes.now)) }
    ensures fits { result < 2 ^ 16 }
{
    byte(bytes, at) + 0x100 * byte(bytes, at + 1)
}

/// The number in four bytes.
#[inline(always)]
#[tactic(auto, using(crate::proofs::Halves::read_four))]
fn four(bytes: &[u8], at: usize) -> u64
    requires { at + 4 ≤ length bytes.now }
    ensures number { result ≡ number_of (take 4 (drop at bytes.now)) }
    ensures fits { result < 2 ^ 32 }
{
    two(bytes, at) + 0x1_0000 * two(bytes, at + 2)
}

/// The number in eight bytes.
#[inline(always)]
#[tactic(auto, using(crate::proofs::Halves::read_eight))]
fn eight(bytes: &[u8], at: usize) -> u64
    requires { at + 8 ≤ length bytes.now }
    ensures number { result ≡ number_of (take 8 (drop at bytes.now)) }
    ensures fits { result < 2 ^ 64 }
{
    four(bytes, at) + 0x1_0000_0000 * four(bytes, at + 4)
}

/// The number in bytes that are there.
#[inline(always)]
fn number_at(bytes: &[u8], at: usize, width: Width) -> u64
    requires { at + bytes_in width ≤ length bytes.now }
    ensures number { result ≡ number_of (take (bytes_in width) (drop at bytes.now)) }
    ensures fits { result < 2 ^ (8 * bytes_in width) }
{
    match width {
        Width::One => byte(bytes, at),
        Width::Two => two(bytes, at),
        Width::Four => four(bytes, at),
        Width::Eight => eight(bytes, at),
    }
}

/// Writes the lowest byte of a number.
#[inline(always)]
fn set_byte(bytes: &mut [u8], at: usize, number: u64)
    requires { at + 1 ≤ length bytes.old }
    ensures { bytes.new ≡ overwrite bytes.old at (bytes_of 1 number) }
{
    bytes[at] = (number % 0x100) as u8;
}

/// Writes the two lowest bytes of a number.
#[inline(always)]
#[tactic(auto, using(crate::proofs::Halves::write_two))]
fn set_two(bytes: &mut [u8], at: usize, number: u64)
    requires { at + 2 ≤ length bytes.old }
    ensures { bytes.new ≡ overwrite bytes.old at (bytes_of 2 number) }
{
    set_byte(bytes, at, number);
    set_byte(bytes, at + 1, number / 0x100);
}

/// Writes the four lowest bytes of a number.
#[inline(always)]
#[tactic(auto, using(crate::proofs::Halves::write_four))]
fn set_four(bytes: &mut [u8], at: usize, number: u64)
    requires { at + 4 ≤ length bytes.old }
    ensures { bytes.new ≡ overwrite bytes.old at (bytes_of 4 number) }
{
    set_two(bytes, at, number);
    set_two(bytes, at + 2, number / 0x1_0000);
}

/// Writes the eight bytes of a number.
#[inline(always)]
#[tactic(auto, using(crate::proofs::Halves::write_eight))]
fn set_eight(bytes: &mut [u8], at: usize, number: u64)
    requires { at + 8 ≤ length bytes.old }
    ensures { bytes.new ≡ overwrite bytes.old at (bytes_of 8 number) }
{
    set_four(bytes, at, number);
    set_four(bytes, at + 4, number / 0x1_0000_0000);
}

/// Writes the lowest bytes of a number to bytes that are there.
#[inline(always)]
fn set_number(bytes: &mut [u8], at: usize, width: Width, number: u64)
    requires { at + bytes_in width ≤ length bytes.old }
    ensures { bytes.new ≡ overwrite bytes.old at (bytes_of (bytes_in width) number) }
{
    match width {
        Width::One => set_byte(bytes, at, number),
        Width::Two => set_two(bytes, at, number),
        Width::Four => set_four(bytes, at, number),
        Width::Eight => set_eight(bytes, at, number),
    }
}

/// A memory (the standard, 4.2.8), which contracts see as the list of its bytes: at most 65,536 pages.
#[derive(Drop)]
pub struct Memory {
    bytes: Vec<u8>,
}

impl Model for Memory {
    ghost use Rattle.std.specs.Prelude.{ℕ, List, ◌≤◌, ◌^◌};
    ghost use Rattle.std.specs.Vec.{vec_len};

    ghost Value = { List ℕ };

    ghost view = { λ m. m.bytes.items };

    ghost invariant = { λ m. vec_len m.bytes ≤ 2 ^ 32 };
}

/// Whether so many bytes stand from an index on.
#[inline(always)]
fn is_there(bytes: &[u8], at: usize, width: Width) -> bool
    requires { at < 2 ^ 33 }
    ensures { result ≡ nat_le (at + bytes_in width) (length bytes.now) }
{
    at + width.bytes() <= bytes.len()
}

impl Memory {
    /// A memory of so many pages of zeros.
    pub fn new(alloc: Global, pages: u32) -> Result<Memory, AllocError>
        requires { pages ≤ 65536 }
        ensures { IfOk result (λ m. m ≡ replicate (pages * page) 0) }
    {
        let bytes = Vec::from_elem(alloc, 0_u8, pages as usize * PAGE)?;
        Ok(Memory { bytes })
    }

    /// How many pages the memory has.
    pub fn pages(&self) -> u32
        ensures { result ≡ length self.now / page }
    {
        (self.bytes.len() / PAGE) as u32
    }

    /// The number in the bytes from an address on, where they are there.
    #[inline(always)]
    pub fn read(&self, at: u64, width: Width) -> Option<u64>
        requires { at < 2 ^ 33 }
        ensures number { result ≡ read_at self.now at (bytes_in width) }
        ensures fits { IfSome result (λ n. n < 2 ^ (8 * bytes_in width)) }
    {
        let at = at as usize;
        if !is_there(&self.bytes, at, width) {
            return None;
        }
        Some(number_at(&self.bytes, at, width))
    }

    /// Writes the lowest bytes of a number from an address on; says whether they are there, and else changes nothing.
    #[inline(always)]
    pub fn write(&mut self, at: u64, width: Width, number: u64) -> bool
        requires { at < 2 ^ 33 }
        ensures { WritesTo (written_at self.old at (bytes_in width) number) self.old result self.new }
    {
        let at = at as usize;
        if !is_there(&self.bytes, at, width) {
            return false;
        }
        set_number(&mut self.bytes, at, width, number);
        true
    }
}
