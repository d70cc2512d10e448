//! Reads the parts of statements, by one token ahead.

ghost use Rattle.std.specs.Prelude.{◌≡◌, ◌<◌, ◌≤◌, ◌-◌, length, IfOk, OnOk};
ghost use Rattle.std.specs.Option.{option_map};
ghost use Rattle.plural_syntax.specs.Words.{is, lexemes};
ghost use Rattle.plural_syntax.specs.Inside.Reading as spec;

use crate::expressions::{expr, list};
use crate::levels::Levels;
use crate::reading::{Stop, take, token_group};
use crate::tree::{
    ExprPair, Item, ItemAfter, ItemList, Order, Side, TokenGroup, Value, Values, Vars,
};
use crate::word::{Word, next_is};
use plural_lexer::Token;
use sqlite_items::{Boxed, Items};
use std::alloc::Global;

#[tactic(auto, unfolding(crate::specs::Inside::Reading::read_vars))]
pub fn vars<'a>(
    alloc: Global,
    bytes: &[u8],
    tokens: &'a [Token],
) -> Result<(Boxed<Vars>, &'a [Token]), Stop<'a>>
    ensures value { spec.Gives bytes.now result (spec.read_vars (lexemes bytes.now tokens.now)) }
    ensures shorter { IfOk result (λ x. length x.1.now < length tokens.now) }
{
    if next_is(bytes, tokens, Word::Name) {
        let (name, rest) = take(bytes, tokens, Word::Name)?;
        Ok((Boxed::new(alloc, Vars::One { name })?, rest))
    } else {
        let (names, rest) = token_group(alloc, bytes, tokens, Word::Name)?;
        Ok((Boxed::new(alloc, Vars::Many { names })?, rest))
    }
}

fn maybe_numbers<'a>(
    alloc: Global,
    bytes: &[u8],
    tokens: &'a [Token],
) -> Result<(Option<TokenGroup>, &'a [Token]), Stop<'a>>
    ensures value { spec.Gives bytes.now result (spec.maybe Word.Open (spec.token_group Word.Int) (lexemes bytes.now tokens.now)) }
    ensures shorter { IfOk result (λ x. length x.1.now ≤ length tokens.now) }
{
    if next_is(bytes, tokens, Word::Open) {
        let (found, rest) = token_group(alloc, bytes, tokens, Word::Int)?;
        Ok((Some(found), rest))
    } else {
        Ok((None, tokens))
    }
}

#[tactic(auto, unfolding(crate::specs::Inside::Reading::item))]
fn item<'a>(
    alloc: Global,
    bytes: &[u8],
    tokens: &'a [Token],
) -> Result<(Item, &'a [Token]), Stop<'a>>
    ensures value { spec.Gives bytes.now result (spec.item (lexemes bytes.now tokens.now)) }
    ensures shorter { IfOk result (λ x. length x.1.now < length tokens.now) }
{
    let (name, rest) = take(bytes, tokens, Word::Name)?;
    let (numbers, rest) = maybe_numbers(alloc, bytes, rest)?;
    Ok((Item { name, numbers }, rest))
}

#[tactic(auto, unfolding(crate::specs::Inside::Reading::item_after))]
fn item_after<'a>(
    alloc: Global,
    bytes: &[u8],
    tokens: &'a [Token],
) -> Result<(ItemAfter, &'a [Token]), Stop<'a>>
    ensures value { spec.Gives bytes.now result (spec.item_after (lexemes bytes.now tokens.now)) }
    ensures shorter { IfOk result (λ x. length x.1.now < length tokens.now) }
{
    let (comma, rest) = take(bytes, tokens, Word::Comma)?;
    let (item, rest) = item(alloc, bytes, rest)?;
    Ok((ItemAfter { comma, item }, rest))
}

fn items_after<'a>(
    alloc: Global,
    bytes: &[u8],
    tokens: &'a [Token],
) -> Result<(Items<ItemAfter>, &'a [Token]), Stop<'a>>
    ensures value { spec.Gives bytes.now result (spec.many (is Word.Comma) spec.item_after (lexemes bytes.now tokens.now)) }
    ensures shorter { IfOk result (λ x. length x.1.now ≤ length tokens.now) }
{
    let mut found: Items<ItemAfter> = Items::new(alloc);
    let mut rest = tokens;
    while next_is(bytes, rest, Word::Comma) {
        let (one, after) = item_after(alloc, bytes, rest)?;
        found.push(one)?;
        rest = after;
    }
    Ok((found, rest))
}

#[tactic(auto, unfolding(crate::specs::Inside::Reading::item_list))]
fn item_list<'a>(
    alloc: Global,
    bytes: &[u8],
    tokens: &'a [Token],
) -> Result<(ItemList, &'a [Token]), Stop<'a>>
    ensures value { spec.Gives bytes.now result (spec.item_list (lexemes bytes.now tokens.now)) }
    ensures shorter { IfOk result (λ x. length x.1.now < length tokens.now) }
{
    let (first, rest) = item(alloc, bytes, tokens)?;
    let (more, rest) = items_after(alloc, bytes, rest)?;
    Ok((ItemList { first, more }, rest))
}

#[tactic(auto, unfolding(crate::specs::Inside::Reading::read_order))]
pub fn order<'a>(
    alloc: Global,
    bytes: &[u8],
    tokens: &'a [Token],
) -> Result<(Boxed<Order>, &'a [Token]), Stop<'a>>
    ensures value { spec.Gives bytes.now result (spec.read_order (lexemes bytes.now tokens.now)) }
    ensures shorter { IfOk result (λ x. length x.1.now < length tokens.now) }
{
    if next_is(bytes, tokens, Word::Name) {
        let (item, rest) = item(alloc, bytes, tokens)?;
        Ok((Boxed::new(alloc, Order::One { item })?, rest))
    } else {
        let (opening, rest) = take(bytes, tokens, Word::Open)?;
        let (items, rest) = item_list(alloc, bytes, rest)?;
        let (closing, rest) = take(bytes, rest, Word::Close)?;
        let order = Order::Many {
            opening,
            items,
            closing,
        };
        Ok((Boxed::new(alloc, order)?, rest))
    }
}

#[tactic(auto, unfolding(crate::specs::Inside::Reading::side))]
pub fn side<'a>(
    alloc: Global,
    bytes: &[u8],
    tokens: &'a [Token],
) -> Result<(Boxed<Side>, &'a [Token]), Stop<'a>>
    ensures value { spec.Gives bytes.now result (spec.side (lexemes bytes.now tokens.now)) }
    ensures shorter { IfOk result (λ x. length x.1.now < length tokens.now) }
{
    let (opening, rest) = take(bytes, tokens, Word::OpenIndex)?;
    let (number, rest) = take(bytes, rest, Word::Int)?;
    let (closing, rest) = take(bytes, rest, Word::CloseIndex)?;
    let side = Side {
        opening,
        number,
        closing,
    };
    Ok((Boxed::new(alloc, side)?, rest))
}

#[tactic(auto, unfolding(crate::specs::Inside::Reading::value_with))]
fn value<'a>(
    alloc: Global,
    bytes: &[u8],
    levels: &mut Levels,
    tokens: &'a [Token],
) -> Result<(Value, &'a [Token]), Stop<'a>>
    ensures value { spec.Gives bytes.now result (spec.value_with (spec.inside levels.old) (lexemes bytes.now tokens.now)) }
    ensures shorter { IfOk result (λ x. length x.1.now < length tokens.now) }
    ensures same { OnOk result (levels.new ≡ levels.old) }
{
    let (equals, rest) = take(bytes, tokens, Word::Equals)?;
    let (expr, rest) = expr(alloc, bytes, levels, rest)?;
    Ok((Value { equals, expr }, rest))
}

pub fn maybe_value<'a>(
    alloc: Global,
    bytes: &[u8],
    levels: &mut Levels,
    tokens: &'a [Token],
) -> Result<(Option<Boxed<Value>>, &'a [Token]), Stop<'a>>
    ensures value { spec.Gives bytes.now result (spec.maybe Word.Equals (spec.value_with (spec.inside levels.old)) (lexemes bytes.now tokens.now)) }
    ensures shorter { IfOk result (λ x. length x.1.now ≤ length tokens.now) }
    ensures same { OnOk result (levels.new ≡ levels.old) }
{
    if next_is(bytes, tokens, Word::Equals) {
        let (found, rest) = value(alloc, bytes, levels, tokens)?;
        Ok((Some(Boxed::new(alloc, found)?), rest))
    } else {
        Ok((None, tokens))
    }
}

#[tactic(auto, unfolding(crate::specs::Inside::Reading::values_with))]
fn values<'a>(
    alloc: Global,
    bytes: &[u8],
    levels: &mut Levels,
    tokens: &'a [Token],
) -> Result<(Values, &'a [Token]), Stop<'a>>
    ensures value { spec.Gives bytes.now result (spec.values_with (spec.inside levels.old) (lexemes bytes.now tokens.now)) }
    ensures shorter { IfOk result (λ x. length x.1.now < length tokens.now) }
    ensures same { OnOk result (levels.new ≡ levels.old) }
{
    let (equals, rest) = take(bytes, tokens, Word::Equals)?;
    let (list, rest) = list(alloc, bytes, levels, rest)?;
    Ok((Values { equals, list }, rest))
}

pub fn maybe_values<'a>(
    alloc: Global,
    bytes: &[u8],
    levels: &mut Levels,
    tokens: &'a [Token],
) -> Result<(Option<Boxed<Values>>, &'a [Token]), Stop<'a>>
    ensures value { spec.Gives bytes.now result (spec.maybe Word.Equals (spec.values_with (spec.inside levels.old)) (lexemes bytes.now tokens.now)) }
    ensures shorter { IfOk result (λ x. length x.1.now ≤ length tokens.now) }
    ensures same { OnOk result (levels.new ≡ levels.old) }
{
    if next_is(bytes, tokens, Word::Equals) {
        let (found, rest) = values(alloc, bytes, levels, tokens)?;
        Ok((Some(Boxed::new(alloc, found)?), rest))
    } else {
        Ok((None, tokens))
    }
}

#[tactic(auto, unfolding(crate::specs::Inside::Reading::pair_with))]
fn pair<'a>(
    alloc: Global,
    bytes: &[u8],
    levels: &mut Levels,
    tokens: &'a [Token],
) -> Result<(ExprPair, &'a [Token]), Stop<'a>>
    ensures value { spec.Gives bytes.now result (spec.pair_with (spec.expr_with (spec.inside levels.old)) (lexemes bytes.now tokens.now)) }
    ensures shorter { IfOk result (λ x. length x.1.now < length tokens.now) }
    ensures same { OnOk result (levels.new ≡ levels.old) }
{
    let (first, rest) = expr(alloc, bytes, levels, tokens)?;
    let (comma, rest) = take(bytes, rest, Word::Comma)?;
    let (second, rest) = expr(alloc, bytes, levels, rest)?;
    let pair = ExprPair {
        first,
        comma,
        second,
    };
    Ok((pair, rest))
}

fn inner_data<'a>(
    alloc: Global,
    bytes: &[u8],
    levels: &mut Levels,
    tokens: &'a [Token],
) -> Result<((Token, Boxed<ExprPair>, Token), &'a [Token]), Stop<'a>>
    requires { (0 < levels.old) × (levels.old ≤ 64) }
    ensures value { spec.Gives bytes.now result (spec.level (Some (spec.pair_with (spec.expr_with (spec.inside (levels.old - 1))))) (lexemes bytes.now tokens.now)) }
    ensures shorter { IfOk result (λ x. length x.1.now < length tokens.now) }
    ensures same { OnOk result (levels.new ≡ levels.old) }
{
    let (opening, rest) = take(bytes, tokens, Word::Open)?;
    levels.enter(opening)?;
    let (found, rest) = pair(alloc, bytes, levels, rest)?;
    levels.leave();
    let (closing, rest) = take(bytes, rest, Word::Close)?;
    Ok(((opening, Boxed::new(alloc, found)?, closing), rest))
}

/// The data of an algebra, in parentheses.
pub fn data<'a>(
    alloc: Global,
    bytes: &[u8],
    levels: &mut Levels,
    tokens: &'a [Token],
) -> Result<((Token, Boxed<ExprPair>, Token), &'a [Token]), Stop<'a>>
    ensures value { spec.Gives bytes.now result (spec.level (option_map spec.pair_with (spec.inside levels.old)) (lexemes bytes.now tokens.now)) }
    ensures shorter { IfOk result (λ x. length x.1.now < length tokens.now) }
    ensures same { OnOk result (levels.new ≡ levels.old) }
{
    if levels.left() > 0 {
        inner_data(alloc, bytes, levels, tokens)
    } else if next_is(bytes, tokens, Word::Open) {
        Err(Stop::Deep(tokens))
    } else {
        Err(Stop::Unexpected(tokens))
    }
}
