// A place in a text.

/// A place in a program's text: in the source itself, or in the prelude's text that stands before it.
#[derive(Clone, Copy, Debug, PartialEq, Eq)]
pub struct At {
    /// Whether the place lies in the prelude's text.
    pub prelude: bool,
    /// The number of bytes before the place.
    pub offset: u32,
}
