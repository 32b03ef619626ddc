//! What loads, stores and numeric operations do, by the table of instructions.

ghost use Rattle.std.specs.Prelude.{◌≡◌, ◌^◌};
ghost use Rattle.wb_syntax.specs.Table.{row_at};
ghost use Rattle.wb_valid.specs.Syntax.{I32};
ghost use Rattle.wb_valid.specs.Effects.{Moves, taking, only_if, is_access, load_effect, store_effect, unary_effect, binary_effect};

use wb_syntax::NumType;

/// The types of the operands that an instruction takes, the top first.
#[derive(Clone, Copy, Debug, PartialEq, Eq)]
pub struct Takings {
    pub first: Option<NumType>,
    pub second: Option<NumType>,
}

/// What an instruction does to the operands.
#[derive(Clone, Copy, Debug, PartialEq, Eq)]
pub enum Effect {
    /// Takes operands and gives at most one.
    Moves(Takings, Option<NumType>),
    /// Takes operands; what follows is never reached.
    Jumping(Takings),
    /// Calls a function of the type with this index.
    Calls(u32),
    /// Takes an operand of any type.
    Drops,
    /// Takes an i32 and two operands of one type, and gives one of that type.
    Selects,
    /// Has no typing.
    Refused,
}

/// The types of what is taken: the top operand first.
pub fn taking(first: Option<NumType>, second: Option<NumType>) -> Takings
    ensures { result ≡ taking first second }
{
    Takings { first, second }
}

/// Takes at most one operand and gives at most one.
pub fn moves(taken: Option<NumType>, given: Option<NumType>) -> Effect
    ensures { result ≡ Moves (taking taken None) given }
{
    Effect::Moves(taking(taken, None), given)
}

/// The effect where the test holds, else none.
pub fn only_if(test: bool, effect: Effect) -> Effect
    ensures { result ≡ only_if test effect }
{
    if test { effect } else { Effect::Refused }
}

/// Whether an access of 2^exponent bytes may have this alignment.
fn is_access(has_memory: bool, align: u32, exponent: u32) -> bool
    ensures { result ≡ is_access has_memory align (2 ^ exponent) }
{
    has_memory && align <= exponent
}

/// A load of 2^exponent bytes that gives this type.
fn load_of(has_memory: bool, align: u32, exponent: u32, ty: NumType) -> Effect
    ensures { result ≡ only_if (is_access has_memory align (2 ^ exponent)) (Moves (taking (Some I32) None) (Some ty)) }
{
    only_if(
        is_access(has_memory, align, exponent),
        moves(Some(NumType::I32), Some(ty)),
    )
}

/// A store of 2^exponent bytes of a word of this type.
fn store_of(has_memory: bool, align: u32, exponent: u32, ty: NumType) -> Effect
    ensures { result ≡ only_if (is_access has_memory align (2 ^ exponent)) (Moves (taking (Some ty) (Some I32)) None) }
{
    let effect = Effect::Moves(taking(Some(ty), Some(NumType::I32)), None);
    only_if(is_access(has_memory, align, exponent), effect)
}

/// The effect of a load by its opcode.
#[tactic(auto, unfolding(wb_syntax::specs::Table::row_at))]
pub fn load(has_memory: bool, align: u32, op: u8) -> Effect
    ensures { result ≡ load_effect has_memory align (row_at op) }
{
    match op {
        0x28 => load_of(has_memory, align, 2, NumType::I32),
        0x29 => load_of(has_memory, align, 3, NumType::I64),
        0x2C | 0x2D => load_of(has_memory, align, 0, NumType::I32),
        0x2E | 0x2F => load_of(has_memory, align, 1, NumType::I32),
        0x30 | 0x31 => load_of(has_memory, align, 0, NumType::I64),
        0x32 | 0x33 => load_of(has_memory, align, 1, NumType::I64),
        0x34 | 0x35 => load_of(has_memory, align, 2, NumType::I64),
        _ => Effect::Refused,
    }
}

/// The effect of a store by its opcode.
#[tactic(auto, unfolding(wb_syntax::specs::Table::row_at))]
pub fn store(has_memory: bool, align: u32, op: u8) -> Effect
    ensures { result ≡ store_effect has_memory align (row_at op) }
{
    match op {
        0x36 => store_of(has_memory, align, 2, NumType::I32),
        0x37 => store_of(has_memory, align, 3, NumType::I64),
        0x3A => store_of(has_memory, align, 0, NumType::I32),
        0x3B => store_of(has_memory, align, 1, NumType::I32),
        0x3C => store_of(has_memory, align, 0, NumType::I64),
        0x3D => store_of(has_memory, align, 1, NumType::I64),
        0x3E => store_of(has_memory, align, 2, NumType::I64),
        _ => Effect::Refused,
    }
}

/// The effect of an operation with one operand by its opcode.
#[tactic(auto, unfolding(wb_syntax::specs::Table::row_at))]
pub fn unary(op: u8) -> Effect
    ensures { result ≡ unary_effect (row_at op) }
{
    match op {
        0x45 => moves(Some(NumType::I32), Some(NumType::I32)),
        0x50 => moves(Some(NumType::I64), Some(NumType::I32)),
        0x67..=0x69 => moves(Some(NumType::I32), Some(NumType::I32)),
        0x79..=0x7B => moves(Some(NumType::I64), Some(NumType::I64)),
        0xA7 => moves(Some(NumType::I64), Some(NumType::I32)),
        0xAC..=0xAD => moves(Some(NumType::I32), Some(NumType::I64)),
        _ => Effect::Refused,
    }
}

/// An operation with two operands of this type.
fn two(ty: NumType, given: NumType) -> Effect
    ensures { result ≡ Moves (taking (Some ty) (Some ty)) (Some given) }
{
    Effect::Moves(taking(Some(ty), Some(ty)), Some(given))
}

/// The effect of an operation with two operands by its opcode.
#[tactic(auto, unfolding(wb_syntax::specs::Table::row_at))]
pub fn binary(op: u8) -> Effect
    ensures { result ≡ binary_effect (row_at op) }
{
    match op {
        0x46..=0x4F => two(NumType::I32, NumType::I32),
        0x51..=0x5A => two(NumType::I64, NumType::I32),
        0x6A..=0x78 => two(NumType::I32, NumType::I32),
        0x7C..=0x8A => two(NumType::I64, NumType::I64),
        _ => Effect::Refused,
    }
}
