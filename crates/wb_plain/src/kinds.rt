//! What loads and stores do, by the table of instructions.

ghost use Rattle.std.specs.Prelude.{◌≡◌, ◌*◌, ◌≤◌, IfSome};
ghost use Rattle.wb_syntax.specs.Numbers.{bits_of};
ghost use Rattle.wb_state.specs.Bytes.{bytes_in};
ghost use Rattle.wb_syntax.specs.Table.{row_at};
ghost use Rattle.wb_plain.specs.Rows.{load_types, store_types, loading, storing};

use wb_state::Width;
use wb_syntax::NumType;

/// A load: the type of the word, how many bytes are read, and whether they are signed.
#[derive(Clone, Copy, Debug, PartialEq, Eq)]
pub struct LoadKind {
    pub gives: NumType,
    pub width: Width,
    pub signed: bool,
}

/// A store: the type of the word, and how many bytes are written.
#[derive(Clone, Copy, Debug, PartialEq, Eq)]
pub struct StoreKind {
    pub takes: NumType,
    pub width: Width,
}

#[inline(always)]
fn load_of(gives: NumType, width: Width, signed: bool) -> Option<LoadKind>
    ensures { result ≡ Some (record { gives = gives; width = width; signed = signed }) }
{
    Some(LoadKind {
        gives,
        width,
        signed,
    })
}

/// What a load does, by its opcode.
#[inline(always)]
#[tactic(auto, unfolding(wb_syntax::specs::Table::row_at))]
pub fn load_kind(op: u8) -> Option<LoadKind>
    ensures row { loading result ≡ load_types (row_at op) }
    ensures narrow { IfSome result (λ k. 8 * bytes_in k.width ≤ bits_of k.gives) }
{
    match op {
        0x28 => load_of(NumType::I32, Width::Four, false),
        0x29 => load_of(NumType::I64, Width::Eight, false),
        0x2C => load_of(NumType::I32, Width::One, true),
        0x2D => load_of(NumType::I32, Width::One, false),
        0x2E => load_of(NumType::I32, Width::Two, true),
        0x2F => load_of(NumType::I32, Width::Two, false),
        0x30 => load_of(NumType::I64, Width::One, true),
        0x31 => load_of(NumType::I64, Width::One, false),
        0x32 => load_of(NumType::I64, Width::Two, true),
        0x33 => load_of(NumType::I64, Width::Two, false),
        0x34 => load_of(NumType::I64, Width::Four, true),
        0x35 => load_of(NumType::I64, Width::Four, false),
        _ => None,
    }
}

#[inline(always)]
fn store_of(takes: NumType, width: Width) -> Option<StoreKind>
    ensures { result ≡ Some (record { takes = takes; width = width }) }
{
    Some(StoreKind { takes, width })
}

/// What a store does, by its opcode.
#[inline(always)]
#[tactic(auto, unfolding(wb_syntax::specs::Table::row_at))]
pub fn store_kind(op: u8) -> Option<StoreKind>
    ensures { storing result ≡ store_types (row_at op) }
{
    match op {
        0x36 => store_of(NumType::I32, Width::Four),
        0x37 => store_of(NumType::I64, Width::Eight),
        0x3A => store_of(NumType::I32, Width::One),
        0x3B => store_of(NumType::I32, Width::Two),
        0x3C => store_of(NumType::I64, Width::One),
        0x3D => store_of(NumType::I64, Width::Two),
        0x3E => store_of(NumType::I64, Width::Four),
        _ => None,
    }
}
