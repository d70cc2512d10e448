//! Reads single tokens, and lists of names and numbers, by one token ahead.

ghost use Rattle.std.specs.Prelude.{◌≡◌, ◌<◌, ◌≤◌, length, IfOk};
ghost use Rattle.plural_syntax.specs.Words.{is, lexemes};
ghost use Rattle.plural_syntax.specs.Inside.Reading as spec;

use crate::tree::{FunctionName, Index, Power, TokenAfter, TokenGroup, TokenList};
use crate::word::{Word, next_function, next_is};
use plural_lexer::Token;
use sqlite_items::{Boxed, Items};
use std::alloc::{AllocError, Global};

/// Where reading stopped: the tokens from the bad one on.
#[derive(Drop)]
pub enum Stop<'a> {
    Unexpected(&'a [Token]),
    Deep(&'a [Token]),
    Memory,
}

impl From<AllocError> for Stop<'_> {
    ghost use Rattle.std.specs.Prelude.{◌≡◌};
    ghost use Rattle.plural_syntax.specs.declared.reading.Stop.TheVariants.{Memory};

    ghost from_gives = { λ _ stop. stop ≡ Memory };

    fn from(_error: AllocError) -> Self {
        Stop::Memory
    }
}

pub fn take<'a>(
    bytes: &[u8],
    tokens: &'a [Token],
    wanted: Word,
) -> Result<(Token, &'a [Token]), Stop<'a>>
    ensures value { spec.Gives bytes.now result (spec.take wanted (lexemes bytes.now tokens.now)) }
    ensures shorter { IfOk result (λ x. length x.1.now < length tokens.now) }
{
    if next_is(bytes, tokens, wanted) {
        Ok((tokens[0], &tokens[1..]))
    } else {
        Err(Stop::Unexpected(tokens))
    }
}

#[tactic(auto, unfolding(crate::specs::Inside::Reading::take_either))]
pub fn take_either<'a>(
    bytes: &[u8],
    tokens: &'a [Token],
    one: Word,
    other: Word,
) -> Result<(Token, &'a [Token]), Stop<'a>>
    ensures value { spec.Gives bytes.now result (spec.take_either one other (lexemes bytes.now tokens.now)) }
    ensures shorter { IfOk result (λ x. length x.1.now < length tokens.now) }
{
    if next_is(bytes, tokens, one) {
        take(bytes, tokens, one)
    } else {
        take(bytes, tokens, other)
    }
}

pub fn function_name<'a>(
    bytes: &[u8],
    tokens: &'a [Token],
) -> Result<(FunctionName, &'a [Token]), Stop<'a>>
    ensures value { spec.Gives bytes.now result (spec.function_name (lexemes bytes.now tokens.now)) }
    ensures shorter { IfOk result (λ x. length x.1.now < length tokens.now) }
{
    match next_function(bytes, tokens) {
        Some(function) => {
            let token = tokens[0];
            Ok((FunctionName { token, function }, &tokens[1..]))
        }
        None => Err(Stop::Unexpected(tokens)),
    }
}

#[tactic(auto, unfolding(crate::specs::Inside::Reading::token_after))]
fn token_after<'a>(
    bytes: &[u8],
    tokens: &'a [Token],
    wanted: Word,
) -> Result<(TokenAfter, &'a [Token]), Stop<'a>>
    ensures value { spec.Gives bytes.now result (spec.token_after wanted (lexemes bytes.now tokens.now)) }
    ensures shorter { IfOk result (λ x. length x.1.now < length tokens.now) }
{
    let (comma, rest) = take(bytes, tokens, Word::Comma)?;
    let (token, rest) = take(bytes, rest, wanted)?;
    Ok((TokenAfter { comma, token }, rest))
}

fn tokens_after<'a>(
    alloc: Global,
    bytes: &[u8],
    tokens: &'a [Token],
    wanted: Word,
) -> Result<(Items<TokenAfter>, &'a [Token]), Stop<'a>>
    ensures value { spec.Gives bytes.now result (spec.many (is Word.Comma) (spec.token_after wanted) (lexemes bytes.now tokens.now)) }
    ensures shorter { IfOk result (λ x. length x.1.now ≤ length tokens.now) }
{
    let mut found: Items<TokenAfter> = Items::new(alloc);
    let mut rest = tokens;
    while next_is(bytes, rest, Word::Comma) {
        let (one, after) = token_after(bytes, rest, wanted)?;
        found.push(one)?;
        rest = after;
    }
    Ok((found, rest))
}

#[tactic(auto, unfolding(crate::specs::Inside::Reading::token_list))]
fn token_list<'a>(
    alloc: Global,
    bytes: &[u8],
    tokens: &'a [Token],
    wanted: Word,
) -> Result<(TokenList, &'a [Token]), Stop<'a>>
    ensures value { spec.Gives bytes.now result (spec.token_list wanted (lexemes bytes.now tokens.now)) }
    ensures shorter { IfOk result (λ x. length x.1.now < length tokens.now) }
{
    let (first, rest) = take(bytes, tokens, wanted)?;
    let (more, rest) = tokens_after(alloc, bytes, rest, wanted)?;
    Ok((TokenList { first, more }, rest))
}

#[tactic(auto, unfolding(crate::specs::Inside::Reading::token_group))]
pub fn token_group<'a>(
    alloc: Global,
    bytes: &[u8],
    tokens: &'a [Token],
    wanted: Word,
) -> Result<(TokenGroup, &'a [Token]), Stop<'a>>
    ensures value { spec.Gives bytes.now result (spec.token_group wanted (lexemes bytes.now tokens.now)) }
    ensures shorter { IfOk result (λ x. length x.1.now < length tokens.now) }
{
    let (opening, rest) = take(bytes, tokens, Word::Open)?;
    let (list, rest) = token_list(alloc, bytes, rest, wanted)?;
    let (closing, rest) = take(bytes, rest, Word::Close)?;
    let group = TokenGroup {
        opening,
        list,
        closing,
    };
    Ok((group, rest))
}

#[tactic(auto, unfolding(crate::specs::Inside::Reading::second))]
fn second<'a>(
    bytes: &[u8],
    tokens: &'a [Token],
) -> Result<(Option<TokenAfter>, &'a [Token]), Stop<'a>>
    ensures value { spec.Gives bytes.now result (spec.second (lexemes bytes.now tokens.now)) }
    ensures shorter { IfOk result (λ x. length x.1.now ≤ length tokens.now) }
{
    if next_is(bytes, tokens, Word::Comma) {
        let (found, rest) = token_after(bytes, tokens, Word::Int)?;
        Ok((Some(found), rest))
    } else {
        Ok((None, tokens))
    }
}

#[tactic(auto, unfolding(crate::specs::Inside::Reading::index))]
fn index<'a>(bytes: &[u8], tokens: &'a [Token]) -> Result<(Index, &'a [Token]), Stop<'a>>
    ensures value { spec.Gives bytes.now result (spec.index (lexemes bytes.now tokens.now)) }
    ensures shorter { IfOk result (λ x. length x.1.now < length tokens.now) }
{
    let (opening, rest) = take(bytes, tokens, Word::OpenIndex)?;
    let (first, rest) = take(bytes, rest, Word::Int)?;
    let (second, rest) = second(bytes, rest)?;
    let (closing, rest) = take(bytes, rest, Word::CloseIndex)?;
    let index = Index {
        opening,
        first,
        second,
        closing,
    };
    Ok((index, rest))
}

pub fn maybe_index<'a>(
    alloc: Global,
    bytes: &[u8],
    tokens: &'a [Token],
) -> Result<(Option<Boxed<Index>>, &'a [Token]), Stop<'a>>
    ensures value { spec.Gives bytes.now result (spec.maybe Word.OpenIndex spec.index (lexemes bytes.now tokens.now)) }
    ensures shorter { IfOk result (λ x. length x.1.now ≤ length tokens.now) }
{
    if next_is(bytes, tokens, Word::OpenIndex) {
        let (found, rest) = index(bytes, tokens)?;
        Ok((Some(Boxed::new(alloc, found)?), rest))
    } else {
        Ok((None, tokens))
    }
}

#[tactic(auto, unfolding(crate::specs::Inside::Reading::power))]
fn power<'a>(bytes: &[u8], tokens: &'a [Token]) -> Result<(Power, &'a [Token]), Stop<'a>>
    ensures value { spec.Gives bytes.now result (spec.power (lexemes bytes.now tokens.now)) }
    ensures shorter { IfOk result (λ x. length x.1.now < length tokens.now) }
{
    let (sign, rest) = take(bytes, tokens, Word::Power)?;
    let (exponent, rest) = take(bytes, rest, Word::Int)?;
    Ok((Power { sign, exponent }, rest))
}

pub fn maybe_power<'a>(
    alloc: Global,
    bytes: &[u8],
    tokens: &'a [Token],
) -> Result<(Option<Boxed<Power>>, &'a [Token]), Stop<'a>>
    ensures value { spec.Gives bytes.now result (spec.maybe Word.Power spec.power (lexemes bytes.now tokens.now)) }
    ensures shorter { IfOk result (λ x. length x.1.now ≤ length tokens.now) }
{
    if next_is(bytes, tokens, Word::Power) {
        let (found, rest) = power(bytes, tokens)?;
        Ok((Some(Boxed::new(alloc, found)?), rest))
    } else {
        Ok((None, tokens))
    }
}
