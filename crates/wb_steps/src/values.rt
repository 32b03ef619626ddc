//! Laws of numbers, of memory, of variables and of code, which speak of no step.

ghost use Rattle.wb_steps.specs.Operations.{
  RowsAreFound,
  DivisionsByZero,
  QuotientTooLarge,
  QuotientYields,
  DivisionsYield,
};
ghost use Rattle.wb_steps.specs.Memory.{StoredIsLoaded, SizeStays, BytesStay, NumbersStay};
ghost use Rattle.wb_steps.specs.Variables.{SetIsRead, OthersAreRead, CountStays};
ghost use Rattle.wb_steps.specs.Joined.{FlatJoined, ProperJoined, TypesJoined, SettledJoined};

/// Each row of the table of instructions is that of its opcode.
pub fn rows_found()
    ensures { RowsAreFound }
{}

/// When divisions trap, and what they yield (the standard, 4.3.2).
pub fn divisions()
    ensures by_zero { DivisionsByZero }
    ensures too_large { QuotientTooLarge }
    ensures quotient { QuotientYields }
    ensures others { DivisionsYield }
{}

/// A number that is stored in memory is loaded again, and all other bytes stay.
pub fn numbers_stored()
    ensures loaded { StoredIsLoaded }
    ensures size { SizeStays }
    ensures bytes { BytesStay }
    ensures numbers { NumbersStay }
{}

/// A variable that is set is read again, and all others stay.
pub fn variables_set()
    ensures read { SetIsRead }
    ensures others { OthersAreRead }
    ensures count { CountStays }
{}

/// Code behind code: its flat list, its form, its type, and the constants that begin it.
pub fn code_joined()
    ensures flat { FlatJoined }
    ensures proper { ProperJoined }
    ensures types { TypesJoined }
    ensures settled { SettledJoined }
{}
