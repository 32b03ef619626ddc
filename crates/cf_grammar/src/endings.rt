// What the grammar says of the tokens of a text.
use cf_base::Limit;

/// What passes a limit.
#[derive(Clone, Copy, Debug, PartialEq, Eq)]
pub enum Fault {
    /// an item past a limit
    Many(Limit),
    /// a phrase deeper than 200
    Nested,
}

/// What the grammar says of the tokens of a text. Tokens are numbered from 0 on, the end of the text as the last.
#[derive(Clone, Copy, Debug, PartialEq, Eq)]
pub enum Ending {
    /// the tokens are a program, within the limits
    Fine,
    /// no program, limits left aside, has a beginning made of the tokens up to this one
    Syntax(usize),
    /// with this token something begins that passes a limit
    Past(usize, Fault),
}
