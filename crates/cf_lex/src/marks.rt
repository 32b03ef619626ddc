// Marks.
ghost use Rattle.std.specs.Prelude.{◌≡◌};
ghost use Rattle.cf_lex.specs.Spelling.{long_mark, short_mark};

/// A mark.
#[derive(Clone, Copy, Debug, PartialEq, Eq)]
pub enum Mark {
    /// `(`
    OpenParen,
    /// `)`
    CloseParen,
    /// `[`
    OpenBracket,
    /// `]`
    CloseBracket,
    /// `{`
    OpenBrace,
    /// `}`
    CloseBrace,
    /// `<`
    Less,
    /// `>`
    Greater,
    /// `~`
    Tilde,
    /// `^`
    Caret,
    /// `:`
    Colon,
    /// `:=`
    Becomes,
    /// `;`
    Semicolon,
    /// `.`
    Dot,
    /// `,`
    Comma,
    /// `|`
    Bar,
    /// `->`
    Arrow,
    /// `=>`
    DoubleArrow,
    /// `\`
    Backslash,
    /// `@`
    At,
}

/// The mark that one character spells, if it spells one.
pub fn find_short(c: char) -> Option<Mark>
    ensures { result ≡ short_mark c }
{
    match c {
        '(' => Some(Mark::OpenParen),
        ')' => Some(Mark::CloseParen),
        '[' => Some(Mark::OpenBracket),
        ']' => Some(Mark::CloseBracket),
        '{' => Some(Mark::OpenBrace),
        '}' => Some(Mark::CloseBrace),
        '<' => Some(Mark::Less),
        '>' => Some(Mark::Greater),
        '~' => Some(Mark::Tilde),
        '^' => Some(Mark::Caret),
        ':' => Some(Mark::Colon),
        ';' => Some(Mark::Semicolon),
        '.' => Some(Mark::Dot),
        ',' => Some(Mark::Comma),
        '|' => Some(Mark::Bar),
        '\\' => Some(Mark::Backslash),
        '@' => Some(Mark::At),
        _ => None,
    }
}

/// The mark that two characters spell, if they spell one.
pub fn find_long(c: char, d: char) -> Option<Mark>
    ensures { result ≡ long_mark c d }
{
    match (c, d) {
        (':', '=') => Some(Mark::Becomes),
        ('-', '>') => Some(Mark::Arrow),
        ('=', '>') => Some(Mark::DoubleArrow),
        _ => None,
    }
}
