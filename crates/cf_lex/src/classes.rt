// Classes of characters, and runs of them.
ghost use Rattle.std.specs.Prelude.{◌≡◌, length};
ghost use Rattle.std.specs.List.{take_while};
ghost use Rattle.unicode_ident.specs.Ident.{is_xid_continue};
ghost use Rattle.cf_lex.specs.Tokens.{begins_comment, begins_name, begins_natlit, begins_negative, is_blank, is_digit, stays_on_line};

/// Whether the character is blank.
pub fn is_blank(c: char) -> bool
    ensures { result ≡ is_blank c }
{
    c == ' ' || c == '\t' || c == '\r' || c == '\n'
}

/// Whether the character is a digit of ASCII.
pub fn is_digit(c: char) -> bool
    ensures { result ≡ is_digit c }
{
    '0' <= c && c <= '9'
}

/// Whether a name may begin with the character.
pub fn begins_name(c: char) -> bool
    ensures { result ≡ begins_name c }
{
    unicode_ident::is_xid_start(c) || c == '_'
}

/// Whether a comment begins with these two characters.
pub fn begins_comment(c: char, d: char) -> bool
    ensures { result ≡ begins_comment c d }
{
    c == '-' && d == '-'
}

/// Whether a negative number begins with these two characters.
pub fn begins_negative(c: char, d: char) -> bool
    ensures { result ≡ begins_negative c d }
{
    c == '-' && is_digit(d)
}

/// Whether a Nat literal begins with these two characters.
pub fn begins_natlit(c: char, d: char) -> bool
    ensures { result ≡ begins_natlit c d }
{
    c == '#' && is_digit(d)
}

fn stays_on_line(c: char) -> bool
    ensures { result ≡ stays_on_line c }
{
    c != '\n'
}

/// How many characters that may go on a name stand first.
pub fn name_len(chars: &[char]) -> usize
    ensures { result ≡ length (take_while is_xid_continue chars.now) }
{
    chars
        .iter()
        .take_while(|c| unicode_ident::is_xid_continue(**c))
        .count()
}

/// How many digits stand first.
pub fn digits_len(chars: &[char]) -> usize
    ensures { result ≡ length (take_while is_digit chars.now) }
{
    chars.iter().take_while(|c| is_digit(**c)).count()
}

/// How many characters stand before the end of the line.
pub fn line_len(chars: &[char]) -> usize
    ensures { result ≡ length (take_while stays_on_line chars.now) }
{
    chars.iter().take_while(|c| stays_on_line(**c)).count()
}
