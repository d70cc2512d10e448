//! What the tokens of a script say.

ghost use Rattle.std.specs.Prelude.{◌≡◌};
ghost use Rattle.plural_syntax.specs.Words.{text_of};
ghost use Rattle.script_model.specs.Tokens.{number, is_minus};

use plural_lexer::{Token, number_of};

/// The bytes of a token, none where it does not lie in the script.
pub fn text<'b>(bytes: &'b [u8], token: &Token) -> &'b [u8]
    ensures { result.now ≡ text_of bytes.now token.now }
{
    let (start, end) = (token.start as usize, token.end as usize);
    if start <= end && end <= bytes.len() {
        &bytes[start..end]
    } else {
        &[]
    }
}

/// The value of a number, which has at most 18 digits; 0 for another token.
pub fn number(bytes: &[u8], token: &Token) -> u64
    ensures { result ≡ number bytes.now token.now }
{
    number_of(text(bytes, token), 18).unwrap_or(0)
}

/// Whether it is `-`.
pub fn is_minus(bytes: &[u8], token: &Token) -> bool
    ensures { result ≡ is_minus bytes.now token.now }
{
    text(bytes, token) == b"-".as_slice()
}
