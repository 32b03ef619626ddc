//! Words, and places that hold words of one type.

ghost use Rattle.std.specs.Prelude.{◌≡◌, ◌<◌, ◌^◌, IfSome, map, slice_get};
ghost use Rattle.wb_syntax.specs.Numbers.{bits_of};
ghost use Rattle.wb_syntax.specs.Execute.{word};
ghost use Rattle.wb_state.specs.Words.{seen, type_of, bits_as, holds, replaced, SetsTo};

use wb_syntax::NumType;

/// A value (the standard, 4.2.1): an integer of 32 or of 64 bits, with no sign of its own.
#[derive(Clone, Copy, Debug, PartialEq, Eq)]
pub enum Word {
    I32(u32),
    I64(u64),
}

impl Word {
    /// The word of a type with these bits.
    #[inline(always)]
    pub fn new(ty: NumType, bits: u64) -> Word
        requires { bits < 2 ^ bits_of ty }
        ensures { seen result ≡ word ty bits }
    {
        match ty {
            NumType::I32 => Word::I32(bits as u32),
            NumType::I64 => Word::I64(bits),
        }
    }

    /// The zero of a type.
    pub fn zero(ty: NumType) -> Word
        ensures { seen result ≡ word ty 0 }
    {
        match ty {
            NumType::I32 => Word::I32(0),
            NumType::I64 => Word::I64(0),
        }
    }

    /// The type of the word.
    #[inline(always)]
    pub fn ty(self) -> NumType
        ensures { result ≡ type_of (seen self) }
    {
        match self {
            Word::I32(_) => NumType::I32,
            Word::I64(_) => NumType::I64,
        }
    }

    /// The bits of the word, where it is of this type.
    #[inline(always)]
    pub fn bits_as(self, ty: NumType) -> Option<u64>
        ensures bits { result ≡ bits_as ty (seen self) }
        ensures fits { IfSome result (λ n. n < 2 ^ bits_of ty) }
    {
        match self {
            Word::I32(bits) => match ty {
                NumType::I32 => Some(u64::from(bits)),
                NumType::I64 => None,
            },
            Word::I64(bits) => match ty {
                NumType::I32 => None,
                NumType::I64 => Some(bits),
            },
        }
    }
}

/// Whether a word of this type is held at a place.
#[inline(always)]
fn holds(words: &[Word], at: usize, ty: NumType) -> bool
    ensures { result ≡ holds ty (slice_get (map seen words.now) at) }
{
    match words.get(at) {
        None => false,
        Some(held) => held.ty() == ty,
    }
}

/// Puts a word at a place that holds one of its type; says whether there is such a place, and else changes nothing.
#[inline(always)]
#[tactic(auto, using(crate::proofs::Places::replaced_held))]
pub(crate) fn replace(words: &mut [Word], at: usize, word: Word) -> bool
    ensures { SetsTo (replaced (map seen words.old) at (seen word)) (map seen words.old) result (map seen words.new) }
{
    if !holds(words, at, word.ty()) {
        return false;
    }
    words[at] = word;
    true
}
