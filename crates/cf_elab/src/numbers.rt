// What a constructor is known by.

/// A constructor by its numbers.
#[derive(Clone, Copy, Debug, PartialEq, Eq)]
pub struct CtorNumber {
    /// the number of its data type; `Flag` is 0, and declarations are counted from 1 on
    pub data_type: u32,
    /// its number in its data type, from 0
    pub ctor: u32,
    /// how many parameters its data type has
    pub params: u32,
}
