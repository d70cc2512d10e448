//! Reads expressions by recursive descent, by one token ahead, at most as deep as levels may be opened.

ghost use Rattle.std.specs.Prelude.{◌≡◌, ◌<◌, ◌≤◌, ◌-◌, length, IfOk, OnOk};
ghost use Rattle.std.specs.Option.{option_map};
ghost use Rattle.plural_syntax.specs.Words.{is, is_either, lexemes};
ghost use Rattle.plural_syntax.specs.Inside.Reading as spec;

use crate::levels::Levels;
use crate::reading::{Stop, function_name, maybe_index, maybe_power, take, take_either};
use crate::tree::{Added, Base, Expr, ExprAfter, ExprList, Factor, FunctionName, Scaled, Term};
use crate::word::{Word, next_is, next_is_either, next_is_function};
use plural_lexer::Token;
use sqlite_items::{Boxed, Items};
use std::alloc::Global;

/// An expression in parentheses.
#[cycle(read)]
fn group<'a>(
    alloc: Global,
    bytes: &[u8],
    levels: &mut Levels,
    tokens: &'a [Token],
) -> Result<((Token, Boxed<Expr>, Token), &'a [Token]), Stop<'a>>
    ensures value { spec.Gives bytes.now result (spec.level (spec.inside levels.old) (lexemes bytes.now tokens.now)) }
    ensures shorter { IfOk result (λ x. length x.1.now < length tokens.now) }
    ensures same { OnOk result (levels.new ≡ levels.old) }
{
    if levels.left() > 0 {
        inner_group(alloc, bytes, levels, tokens)
    } else if next_is(bytes, tokens, Word::Open) {
        Err(Stop::Deep(tokens))
    } else {
        Err(Stop::Unexpected(tokens))
    }
}

#[cycle(read)]
fn inner_group<'a>(
    alloc: Global,
    bytes: &[u8],
    levels: &mut Levels,
    tokens: &'a [Token],
) -> Result<((Token, Boxed<Expr>, Token), &'a [Token]), Stop<'a>>
    requires { (0 < levels.old) × (levels.old ≤ 64) }
    ensures value { spec.Gives bytes.now result (spec.level (Some (spec.expr_with (spec.inside (levels.old - 1)))) (lexemes bytes.now tokens.now)) }
    ensures shorter { IfOk result (λ x. length x.1.now < length tokens.now) }
    ensures same { OnOk result (levels.new ≡ levels.old) }
{
    let (opening, rest) = take(bytes, tokens, Word::Open)?;
    levels.enter(opening)?;
    let (found, rest) = expr(alloc, bytes, levels, rest)?;
    levels.leave();
    let (closing, rest) = take(bytes, rest, Word::Close)?;
    Ok(((opening, Boxed::new(alloc, found)?, closing), rest))
}

/// The arguments of a function, in their parentheses.
#[cycle(read)]
fn arguments<'a>(
    alloc: Global,
    bytes: &[u8],
    levels: &mut Levels,
    tokens: &'a [Token],
) -> Result<((Token, Boxed<ExprList>, Token), &'a [Token]), Stop<'a>>
    ensures value { spec.Gives bytes.now result (spec.level (option_map spec.list_with (spec.inside levels.old)) (lexemes bytes.now tokens.now)) }
    ensures shorter { IfOk result (λ x. length x.1.now < length tokens.now) }
    ensures same { OnOk result (levels.new ≡ levels.old) }
{
    if levels.left() > 0 {
        inner_arguments(alloc, bytes, levels, tokens)
    } else if next_is(bytes, tokens, Word::Open) {
        Err(Stop::Deep(tokens))
    } else {
        Err(Stop::Unexpected(tokens))
    }
}

#[cycle(read)]
fn inner_arguments<'a>(
    alloc: Global,
    bytes: &[u8],
    levels: &mut Levels,
    tokens: &'a [Token],
) -> Result<((Token, Boxed<ExprList>, Token), &'a [Token]), Stop<'a>>
    requires { (0 < levels.old) × (levels.old ≤ 64) }
    ensures value { spec.Gives bytes.now result (spec.level (Some (spec.list_with (spec.expr_with (spec.inside (levels.old - 1))))) (lexemes bytes.now tokens.now)) }
    ensures shorter { IfOk result (λ x. length x.1.now < length tokens.now) }
    ensures same { OnOk result (levels.new ≡ levels.old) }
{
    let (opening, rest) = take(bytes, tokens, Word::Open)?;
    levels.enter(opening)?;
    let (found, rest) = list(alloc, bytes, levels, rest)?;
    levels.leave();
    let (closing, rest) = take(bytes, rest, Word::Close)?;
    Ok(((opening, Boxed::new(alloc, found)?, closing), rest))
}

/// A call, behind the name of its function.
#[cycle(read)]
#[tactic(auto, unfolding(crate::specs::Inside::Reading::called_with))]
pub fn called<'a>(
    alloc: Global,
    bytes: &[u8],
    levels: &mut Levels,
    name: FunctionName,
    tokens: &'a [Token],
) -> Result<(Base, &'a [Token]), Stop<'a>>
    ensures value { spec.Gives bytes.now result (spec.called_with (spec.inside levels.old) name (lexemes bytes.now tokens.now)) }
    ensures shorter { IfOk result (λ x. length x.1.now < length tokens.now) }
    ensures same { OnOk result (levels.new ≡ levels.old) }
{
    let ((opening, arguments, closing), rest) = arguments(alloc, bytes, levels, tokens)?;
    let base = Base::Call {
        name,
        opening,
        arguments,
        closing,
    };
    Ok((base, rest))
}

#[cycle(read)]
#[tactic(auto, unfolding(crate::specs::Inside::Reading::base_with))]
fn base<'a>(
    alloc: Global,
    bytes: &[u8],
    levels: &mut Levels,
    tokens: &'a [Token],
) -> Result<(Base, &'a [Token]), Stop<'a>>
    ensures value { spec.Gives bytes.now result (spec.base_with (spec.inside levels.old) (lexemes bytes.now tokens.now)) }
    ensures shorter { IfOk result (λ x. length x.1.now < length tokens.now) }
    ensures same { OnOk result (levels.new ≡ levels.old) }
{
    if next_is(bytes, tokens, Word::Int) {
        let (number, rest) = take(bytes, tokens, Word::Int)?;
        Ok((Base::Int { number }, rest))
    } else if next_is(bytes, tokens, Word::Name) {
        let (name, rest) = take(bytes, tokens, Word::Name)?;
        let (index, rest) = maybe_index(alloc, bytes, rest)?;
        Ok((Base::Name { name, index }, rest))
    } else if next_is_function(bytes, tokens) {
        let (name, rest) = function_name(bytes, tokens)?;
        called(alloc, bytes, levels, name, rest)
    } else {
        let ((opening, expr, closing), rest) = group(alloc, bytes, levels, tokens)?;
        let base = Base::Group {
            opening,
            expr,
            closing,
        };
        Ok((base, rest))
    }
}

#[cycle(read)]
#[tactic(auto, unfolding(crate::specs::Inside::Reading::factor_with))]
fn factor<'a>(
    alloc: Global,
    bytes: &[u8],
    levels: &mut Levels,
    tokens: &'a [Token],
) -> Result<(Factor, &'a [Token]), Stop<'a>>
    ensures value { spec.Gives bytes.now result (spec.factor_with (spec.inside levels.old) (lexemes bytes.now tokens.now)) }
    ensures shorter { IfOk result (λ x. length x.1.now < length tokens.now) }
    ensures same { OnOk result (levels.new ≡ levels.old) }
{
    let (base, rest) = base(alloc, bytes, levels, tokens)?;
    let (power, rest) = maybe_power(alloc, bytes, rest)?;
    Ok((Factor { base, power }, rest))
}

#[cycle(read)]
#[tactic(auto, unfolding(crate::specs::Inside::Reading::scaled_with))]
fn scaled<'a>(
    alloc: Global,
    bytes: &[u8],
    levels: &mut Levels,
    tokens: &'a [Token],
) -> Result<(Scaled, &'a [Token]), Stop<'a>>
    ensures value { spec.Gives bytes.now result (spec.scaled_with (spec.inside levels.old) (lexemes bytes.now tokens.now)) }
    ensures shorter { IfOk result (λ x. length x.1.now < length tokens.now) }
    ensures same { OnOk result (levels.new ≡ levels.old) }
{
    if next_is(bytes, tokens, Word::Times) {
        let (sign, rest) = take(bytes, tokens, Word::Times)?;
        let (factor, rest) = factor(alloc, bytes, levels, rest)?;
        Ok((Scaled::Times { sign, factor }, rest))
    } else {
        let (sign, rest) = take(bytes, tokens, Word::Over)?;
        let (number, rest) = take(bytes, rest, Word::Int)?;
        Ok((Scaled::Over { sign, number }, rest))
    }
}

#[cycle(read)]
fn all_scaled<'a>(
    alloc: Global,
    bytes: &[u8],
    levels: &mut Levels,
    tokens: &'a [Token],
) -> Result<(Items<Scaled>, &'a [Token]), Stop<'a>>
    ensures value { spec.Gives bytes.now result (spec.many (is_either Word.Times Word.Over) (spec.scaled_with (spec.inside levels.old)) (lexemes bytes.now tokens.now)) }
    ensures shorter { IfOk result (λ x. length x.1.now ≤ length tokens.now) }
    ensures same { OnOk result (levels.new ≡ levels.old) }
{
    let mut found: Items<Scaled> = Items::new(alloc);
    let mut rest = tokens;
    while next_is_either(bytes, rest, Word::Times, Word::Over) {
        let (one, after) = scaled(alloc, bytes, levels, rest)?;
        found.push(one)?;
        rest = after;
    }
    Ok((found, rest))
}

#[cycle(read)]
#[tactic(auto, unfolding(crate::specs::Inside::Reading::term_with))]
fn term<'a>(
    alloc: Global,
    bytes: &[u8],
    levels: &mut Levels,
    tokens: &'a [Token],
) -> Result<(Term, &'a [Token]), Stop<'a>>
    ensures value { spec.Gives bytes.now result (spec.term_with (spec.inside levels.old) (lexemes bytes.now tokens.now)) }
    ensures shorter { IfOk result (λ x. length x.1.now < length tokens.now) }
    ensures same { OnOk result (levels.new ≡ levels.old) }
{
    let (first, rest) = factor(alloc, bytes, levels, tokens)?;
    let (more, rest) = all_scaled(alloc, bytes, levels, rest)?;
    Ok((Term { first, more }, rest))
}

#[cycle(read)]
#[tactic(auto, unfolding(crate::specs::Inside::Reading::added_with))]
fn added<'a>(
    alloc: Global,
    bytes: &[u8],
    levels: &mut Levels,
    tokens: &'a [Token],
) -> Result<(Added, &'a [Token]), Stop<'a>>
    ensures value { spec.Gives bytes.now result (spec.added_with (spec.inside levels.old) (lexemes bytes.now tokens.now)) }
    ensures shorter { IfOk result (λ x. length x.1.now < length tokens.now) }
    ensures same { OnOk result (levels.new ≡ levels.old) }
{
    let (sign, rest) = take_either(bytes, tokens, Word::Plus, Word::Minus)?;
    let (term, rest) = term(alloc, bytes, levels, rest)?;
    Ok((Added { sign, term }, rest))
}

#[cycle(read)]
fn all_added<'a>(
    alloc: Global,
    bytes: &[u8],
    levels: &mut Levels,
    tokens: &'a [Token],
) -> Result<(Items<Added>, &'a [Token]), Stop<'a>>
    ensures value { spec.Gives bytes.now result (spec.many (is_either Word.Plus Word.Minus) (spec.added_with (spec.inside levels.old)) (lexemes bytes.now tokens.now)) }
    ensures shorter { IfOk result (λ x. length x.1.now ≤ length tokens.now) }
    ensures same { OnOk result (levels.new ≡ levels.old) }
{
    let mut found: Items<Added> = Items::new(alloc);
    let mut rest = tokens;
    while next_is_either(bytes, rest, Word::Plus, Word::Minus) {
        let (one, after) = added(alloc, bytes, levels, rest)?;
        found.push(one)?;
        rest = after;
    }
    Ok((found, rest))
}

#[cycle(read)]
#[tactic(auto, unfolding(crate::specs::Inside::Reading::sum_with))]
fn sum<'a>(
    alloc: Global,
    bytes: &[u8],
    levels: &mut Levels,
    sign: Option<Token>,
    tokens: &'a [Token],
) -> Result<(Expr, &'a [Token]), Stop<'a>>
    ensures value { spec.Gives bytes.now result (spec.sum_with (spec.inside levels.old) sign (lexemes bytes.now tokens.now)) }
    ensures shorter { IfOk result (λ x. length x.1.now < length tokens.now) }
    ensures same { OnOk result (levels.new ≡ levels.old) }
{
    let (first, rest) = term(alloc, bytes, levels, tokens)?;
    let (more, rest) = all_added(alloc, bytes, levels, rest)?;
    Ok((Expr { sign, first, more }, rest))
}

#[cycle(read)]
#[tactic(auto, unfolding(crate::specs::Inside::Reading::expr_with))]
pub fn expr<'a>(
    alloc: Global,
    bytes: &[u8],
    levels: &mut Levels,
    tokens: &'a [Token],
) -> Result<(Expr, &'a [Token]), Stop<'a>>
    ensures value { spec.Gives bytes.now result (spec.expr_with (spec.inside levels.old) (lexemes bytes.now tokens.now)) }
    ensures shorter { IfOk result (λ x. length x.1.now < length tokens.now) }
    ensures same { OnOk result (levels.new ≡ levels.old) }
{
    if next_is_either(bytes, tokens, Word::Plus, Word::Minus) {
        let (sign, rest) = take_either(bytes, tokens, Word::Plus, Word::Minus)?;
        sum(alloc, bytes, levels, Some(sign), rest)
    } else {
        sum(alloc, bytes, levels, None, tokens)
    }
}

#[cycle(read)]
#[tactic(auto, unfolding(crate::specs::Inside::Reading::expr_after_with))]
fn expr_after<'a>(
    alloc: Global,
    bytes: &[u8],
    levels: &mut Levels,
    tokens: &'a [Token],
) -> Result<(ExprAfter, &'a [Token]), Stop<'a>>
    ensures value { spec.Gives bytes.now result (spec.expr_after_with (spec.expr_with (spec.inside levels.old)) (lexemes bytes.now tokens.now)) }
    ensures shorter { IfOk result (λ x. length x.1.now < length tokens.now) }
    ensures same { OnOk result (levels.new ≡ levels.old) }
{
    let (comma, rest) = take(bytes, tokens, Word::Comma)?;
    let (expr, rest) = expr(alloc, bytes, levels, rest)?;
    Ok((ExprAfter { comma, expr }, rest))
}

#[cycle(read)]
fn exprs_after<'a>(
    alloc: Global,
    bytes: &[u8],
    levels: &mut Levels,
    tokens: &'a [Token],
) -> Result<(Items<ExprAfter>, &'a [Token]), Stop<'a>>
    ensures value { spec.Gives bytes.now result (spec.many (is Word.Comma) (spec.expr_after_with (spec.expr_with (spec.inside levels.old))) (lexemes bytes.now tokens.now)) }
    ensures shorter { IfOk result (λ x. length x.1.now ≤ length tokens.now) }
    ensures same { OnOk result (levels.new ≡ levels.old) }
{
    let mut found: Items<ExprAfter> = Items::new(alloc);
    let mut rest = tokens;
    while next_is(bytes, rest, Word::Comma) {
        let (one, after) = expr_after(alloc, bytes, levels, rest)?;
        found.push(one)?;
        rest = after;
    }
    Ok((found, rest))
}

#[cycle(read)]
#[tactic(auto, unfolding(crate::specs::Inside::Reading::list_with))]
pub fn list<'a>(
    alloc: Global,
    bytes: &[u8],
    levels: &mut Levels,
    tokens: &'a [Token],
) -> Result<(ExprList, &'a [Token]), Stop<'a>>
    ensures value { spec.Gives bytes.now result (spec.list_with (spec.expr_with (spec.inside levels.old)) (lexemes bytes.now tokens.now)) }
    ensures shorter { IfOk result (λ x. length x.1.now < length tokens.now) }
    ensures same { OnOk result (levels.new ≡ levels.old) }
{
    let (first, rest) = expr(alloc, bytes, levels, tokens)?;
    let (more, rest) = exprs_after(alloc, bytes, levels, rest)?;
    Ok((ExprList { first, more }, rest))
}

/// An expression without a sign, behind its first base.
#[tactic(auto, unfolding(crate::specs::Inside::Reading::resumed_with))]
pub fn resumed<'a>(
    alloc: Global,
    bytes: &[u8],
    levels: &mut Levels,
    base: Base,
    tokens: &'a [Token],
) -> Result<(Expr, &'a [Token]), Stop<'a>>
    ensures value { spec.Gives bytes.now result (spec.resumed_with (spec.inside levels.old) base (lexemes bytes.now tokens.now)) }
    ensures shorter { IfOk result (λ x. length x.1.now ≤ length tokens.now) }
    ensures same { OnOk result (levels.new ≡ levels.old) }
{
    let (power, rest) = maybe_power(alloc, bytes, tokens)?;
    let (scaled, rest) = all_scaled(alloc, bytes, levels, rest)?;
    let (more, rest) = all_added(alloc, bytes, levels, rest)?;
    let first = Term {
        first: Factor { base, power },
        more: scaled,
    };
    let expr = Expr {
        sign: None,
        first,
        more,
    };
    Ok((expr, rest))
}
