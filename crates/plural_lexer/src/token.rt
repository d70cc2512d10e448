/// What a token is. Which reserved word or which sign it is, its bytes say.
#[derive(Clone, Copy, Debug, PartialEq, Eq)]
pub enum TokenKind {
    /// A letter, then letters, digits and `_`, that is no reserved word.
    Name,
    Reserved,
    /// From 1 to 18 digits.
    Int,
    /// One of ``= , ; ( ) [ ] + - * / ^``.
    Sign,
    /// No bytes, behind the last byte of a script.
    End,
}

/// A token: its bytes are those of the script from `start` up to `end`, and the place is that of the
/// first.
#[derive(Clone, Copy, Debug, PartialEq, Eq)]
pub struct Token {
    pub kind: TokenKind,
    pub start: u32,
    pub end: u32,
    /// From 1.
    pub line: u32,
    /// In bytes within the line, from 1.
    pub column: u32,
}
