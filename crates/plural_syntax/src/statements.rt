//! Reads statements, by one token ahead.

ghost use Rattle.std.specs.Prelude.{◌≡◌, ◌<◌, length, IfOk, OnOk};
ghost use Rattle.plural_syntax.specs.Words.{lexemes};
ghost use Rattle.plural_syntax.specs.Inside.Reading as spec;

use crate::expressions::{called, expr, list, resumed};
use crate::levels::Levels;
use crate::parts::{data, maybe_value, maybe_values, order, side, vars};
use crate::reading::{Stop, maybe_index, take, token_group};
use crate::tree::{Base, Function, FunctionName, Index, Statement};
use crate::word::{Word, next, next_is};
use plural_lexer::Token;
use sqlite_items::Boxed;
use std::alloc::Global;

/// The alternatives of a statement that the first token tells apart. A further alternative is a
/// variant here and a row of `start_of`.
#[derive(Clone, Copy, Debug, PartialEq, Eq)]
pub enum Start {
    Empty,
    Ring,
    SetRing,
    Def,
    Poly,
    /// A declaration, or an expression that begins with the function.
    Ideal,
    Module,
    Matrix,
    Option,
    Short,
    Quit,
    /// An assignment, or an expression that begins with a name.
    Name,
    Expr,
}

fn start_of(next: Option<Word>) -> Start
    ensures { result ≡ spec.start_of next }
{
    match next {
        Some(Word::Semicolon) => Start::Empty,
        Some(Word::Ring) => Start::Ring,
        Some(Word::SetRing) => Start::SetRing,
        Some(Word::Def) => Start::Def,
        Some(Word::Poly) => Start::Poly,
        Some(Word::Function(Function::Ideal)) => Start::Ideal,
        Some(Word::Module) => Start::Module,
        Some(Word::Matrix) => Start::Matrix,
        Some(Word::Option) => Start::Option,
        Some(Word::Short) => Start::Short,
        Some(Word::Quit) => Start::Quit,
        Some(Word::Name) => Start::Name,
        _ => Start::Expr,
    }
}

#[tactic(auto, unfolding(crate::specs::Inside::Reading::empty_statement))]
fn empty_statement<'a>(
    bytes: &[u8],
    tokens: &'a [Token],
) -> Result<(Statement, &'a [Token]), Stop<'a>>
    ensures value { spec.Gives bytes.now result (spec.empty_statement (lexemes bytes.now tokens.now)) }
    ensures shorter { IfOk result (λ x. length x.1.now < length tokens.now) }
{
    let (semicolon, rest) = take(bytes, tokens, Word::Semicolon)?;
    Ok((Statement::Empty { semicolon }, rest))
}

#[tactic(auto, unfolding(crate::specs::Inside::Reading::ring_statement))]
fn ring_statement<'a>(
    alloc: Global,
    bytes: &[u8],
    tokens: &'a [Token],
) -> Result<(Statement, &'a [Token]), Stop<'a>>
    ensures value { spec.Gives bytes.now result (spec.ring_statement (lexemes bytes.now tokens.now)) }
    ensures shorter { IfOk result (λ x. length x.1.now < length tokens.now) }
{
    let (keyword, rest) = take(bytes, tokens, Word::Ring)?;
    let (name, rest) = take(bytes, rest, Word::Name)?;
    let (equals, rest) = take(bytes, rest, Word::Equals)?;
    let (characteristic, rest) = take(bytes, rest, Word::Int)?;
    let (comma, rest) = take(bytes, rest, Word::Comma)?;
    let (vars, rest) = vars(alloc, bytes, rest)?;
    let (second_comma, rest) = take(bytes, rest, Word::Comma)?;
    let (order, rest) = order(alloc, bytes, rest)?;
    let (semicolon, rest) = take(bytes, rest, Word::Semicolon)?;
    let statement = Statement::Ring {
        keyword,
        name,
        equals,
        characteristic,
        comma,
        vars,
        second_comma,
        order,
        semicolon,
    };
    Ok((statement, rest))
}

#[tactic(auto, unfolding(crate::specs::Inside::Reading::set_ring_statement))]
fn set_ring_statement<'a>(
    bytes: &[u8],
    tokens: &'a [Token],
) -> Result<(Statement, &'a [Token]), Stop<'a>>
    ensures value { spec.Gives bytes.now result (spec.set_ring_statement (lexemes bytes.now tokens.now)) }
    ensures shorter { IfOk result (λ x. length x.1.now < length tokens.now) }
{
    let (keyword, rest) = take(bytes, tokens, Word::SetRing)?;
    let (name, rest) = take(bytes, rest, Word::Name)?;
    let (semicolon, rest) = take(bytes, rest, Word::Semicolon)?;
    let statement = Statement::SetRing {
        keyword,
        name,
        semicolon,
    };
    Ok((statement, rest))
}

#[tactic(auto, unfolding(crate::specs::Inside::Reading::option_statement))]
fn option_statement<'a>(
    alloc: Global,
    bytes: &[u8],
    tokens: &'a [Token],
) -> Result<(Statement, &'a [Token]), Stop<'a>>
    ensures value { spec.Gives bytes.now result (spec.option_statement (lexemes bytes.now tokens.now)) }
    ensures shorter { IfOk result (λ x. length x.1.now < length tokens.now) }
{
    let (keyword, rest) = take(bytes, tokens, Word::Option)?;
    let (names, rest) = token_group(alloc, bytes, rest, Word::Name)?;
    let (semicolon, rest) = take(bytes, rest, Word::Semicolon)?;
    let statement = Statement::Option {
        keyword,
        names,
        semicolon,
    };
    Ok((statement, rest))
}

#[tactic(auto, unfolding(crate::specs::Inside::Reading::short_statement))]
fn short_statement<'a>(
    bytes: &[u8],
    tokens: &'a [Token],
) -> Result<(Statement, &'a [Token]), Stop<'a>>
    ensures value { spec.Gives bytes.now result (spec.short_statement (lexemes bytes.now tokens.now)) }
    ensures shorter { IfOk result (λ x. length x.1.now < length tokens.now) }
{
    let (keyword, rest) = take(bytes, tokens, Word::Short)?;
    let (equals, rest) = take(bytes, rest, Word::Equals)?;
    let (number, rest) = take(bytes, rest, Word::Int)?;
    let (semicolon, rest) = take(bytes, rest, Word::Semicolon)?;
    let statement = Statement::Short {
        keyword,
        equals,
        number,
        semicolon,
    };
    Ok((statement, rest))
}

#[tactic(auto, unfolding(crate::specs::Inside::Reading::quit_statement))]
fn quit_statement<'a>(
    bytes: &[u8],
    tokens: &'a [Token],
) -> Result<(Statement, &'a [Token]), Stop<'a>>
    ensures value { spec.Gives bytes.now result (spec.quit_statement (lexemes bytes.now tokens.now)) }
    ensures shorter { IfOk result (λ x. length x.1.now < length tokens.now) }
{
    let (keyword, rest) = take(bytes, tokens, Word::Quit)?;
    let (semicolon, rest) = take(bytes, rest, Word::Semicolon)?;
    let statement = Statement::Quit { keyword, semicolon };
    Ok((statement, rest))
}

/// Behind `def` Name `=`.
#[tactic(auto, unfolding(crate::specs::Inside::Reading::defined_with))]
fn defined<'a>(
    alloc: Global,
    bytes: &[u8],
    levels: &mut Levels,
    keyword: Token,
    name: Token,
    equals: Token,
    tokens: &'a [Token],
) -> Result<(Statement, &'a [Token]), Stop<'a>>
    ensures value { spec.Gives bytes.now result (spec.defined_with (spec.inside levels.old) keyword name equals (lexemes bytes.now tokens.now)) }
    ensures shorter { IfOk result (λ x. length x.1.now < length tokens.now) }
    ensures same { OnOk result (levels.new ≡ levels.old) }
{
    if next_is(bytes, tokens, Word::NcAlgebra) {
        let (nc_algebra, rest) = take(bytes, tokens, Word::NcAlgebra)?;
        let ((opening, data, closing), rest) = data(alloc, bytes, levels, rest)?;
        let (semicolon, rest) = take(bytes, rest, Word::Semicolon)?;
        let statement = Statement::NcAlgebra {
            keyword,
            name,
            equals,
            nc_algebra,
            opening,
            data,
            closing,
            semicolon,
        };
        Ok((statement, rest))
    } else {
        let (value, rest) = expr(alloc, bytes, levels, tokens)?;
        let value = Boxed::new(alloc, value)?;
        let (semicolon, rest) = take(bytes, rest, Word::Semicolon)?;
        let statement = Statement::Def {
            keyword,
            name,
            equals,
            value,
            semicolon,
        };
        Ok((statement, rest))
    }
}

#[tactic(auto, unfolding(crate::specs::Inside::Reading::def_with))]
fn def_statement<'a>(
    alloc: Global,
    bytes: &[u8],
    levels: &mut Levels,
    tokens: &'a [Token],
) -> Result<(Statement, &'a [Token]), Stop<'a>>
    ensures value { spec.Gives bytes.now result (spec.def_with (spec.inside levels.old) (lexemes bytes.now tokens.now)) }
    ensures shorter { IfOk result (λ x. length x.1.now < length tokens.now) }
    ensures same { OnOk result (levels.new ≡ levels.old) }
{
    let (keyword, rest) = take(bytes, tokens, Word::Def)?;
    let (name, rest) = take(bytes, rest, Word::Name)?;
    let (equals, rest) = take(bytes, rest, Word::Equals)?;
    defined(alloc, bytes, levels, keyword, name, equals, rest)
}

#[tactic(auto, unfolding(crate::specs::Inside::Reading::poly_with))]
fn poly_statement<'a>(
    alloc: Global,
    bytes: &[u8],
    levels: &mut Levels,
    tokens: &'a [Token],
) -> Result<(Statement, &'a [Token]), Stop<'a>>
    ensures value { spec.Gives bytes.now result (spec.poly_with (spec.inside levels.old) (lexemes bytes.now tokens.now)) }
    ensures shorter { IfOk result (λ x. length x.1.now < length tokens.now) }
    ensures same { OnOk result (levels.new ≡ levels.old) }
{
    let (keyword, rest) = take(bytes, tokens, Word::Poly)?;
    let (name, rest) = take(bytes, rest, Word::Name)?;
    let (value, rest) = maybe_value(alloc, bytes, levels, rest)?;
    let (semicolon, rest) = take(bytes, rest, Word::Semicolon)?;
    let statement = Statement::Poly {
        keyword,
        name,
        value,
        semicolon,
    };
    Ok((statement, rest))
}

#[tactic(auto, unfolding(crate::specs::Inside::Reading::module_with))]
fn module_statement<'a>(
    alloc: Global,
    bytes: &[u8],
    levels: &mut Levels,
    tokens: &'a [Token],
) -> Result<(Statement, &'a [Token]), Stop<'a>>
    ensures value { spec.Gives bytes.now result (spec.module_with (spec.inside levels.old) (lexemes bytes.now tokens.now)) }
    ensures shorter { IfOk result (λ x. length x.1.now < length tokens.now) }
    ensures same { OnOk result (levels.new ≡ levels.old) }
{
    let (keyword, rest) = take(bytes, tokens, Word::Module)?;
    let (name, rest) = take(bytes, rest, Word::Name)?;
    let (value, rest) = maybe_value(alloc, bytes, levels, rest)?;
    let (semicolon, rest) = take(bytes, rest, Word::Semicolon)?;
    let statement = Statement::Module {
        keyword,
        name,
        value,
        semicolon,
    };
    Ok((statement, rest))
}

#[tactic(auto, unfolding(crate::specs::Inside::Reading::matrix_with))]
fn matrix_statement<'a>(
    alloc: Global,
    bytes: &[u8],
    levels: &mut Levels,
    tokens: &'a [Token],
) -> Result<(Statement, &'a [Token]), Stop<'a>>
    ensures value { spec.Gives bytes.now result (spec.matrix_with (spec.inside levels.old) (lexemes bytes.now tokens.now)) }
    ensures shorter { IfOk result (λ x. length x.1.now < length tokens.now) }
    ensures same { OnOk result (levels.new ≡ levels.old) }
{
    let (keyword, rest) = take(bytes, tokens, Word::Matrix)?;
    let (name, rest) = take(bytes, rest, Word::Name)?;
    let (rows, rest) = side(alloc, bytes, rest)?;
    let (columns, rest) = side(alloc, bytes, rest)?;
    let (values, rest) = maybe_values(alloc, bytes, levels, rest)?;
    let (semicolon, rest) = take(bytes, rest, Word::Semicolon)?;
    let statement = Statement::Matrix {
        keyword,
        name,
        rows,
        columns,
        values,
        semicolon,
    };
    Ok((statement, rest))
}

/// The statement of an expression, behind its first base.
#[tactic(auto, unfolding(crate::specs::Inside::Reading::printed_with, crate::specs::Inside::Reading::print_with))]
fn printed<'a>(
    alloc: Global,
    bytes: &[u8],
    levels: &mut Levels,
    base: Base,
    tokens: &'a [Token],
) -> Result<(Statement, &'a [Token]), Stop<'a>>
    ensures value { spec.Gives bytes.now result (spec.printed_with (spec.inside levels.old) base (lexemes bytes.now tokens.now)) }
    ensures shorter { IfOk result (λ x. length x.1.now < length tokens.now) }
    ensures same { OnOk result (levels.new ≡ levels.old) }
{
    let (value, rest) = resumed(alloc, bytes, levels, base, tokens)?;
    let value = Boxed::new(alloc, value)?;
    let (semicolon, rest) = take(bytes, rest, Word::Semicolon)?;
    Ok((Statement::Print { value, semicolon }, rest))
}

/// Behind `ideal`.
#[tactic(auto, unfolding(crate::specs::Inside::Reading::after_ideal))]
fn after_ideal<'a>(
    alloc: Global,
    bytes: &[u8],
    levels: &mut Levels,
    keyword: Token,
    tokens: &'a [Token],
) -> Result<(Statement, &'a [Token]), Stop<'a>>
    ensures value { spec.Gives bytes.now result (spec.after_ideal (spec.inside levels.old) keyword (lexemes bytes.now tokens.now)) }
    ensures shorter { IfOk result (λ x. length x.1.now < length tokens.now) }
    ensures same { OnOk result (levels.new ≡ levels.old) }
{
    if next_is(bytes, tokens, Word::Name) {
        let (name, rest) = take(bytes, tokens, Word::Name)?;
        let (values, rest) = maybe_values(alloc, bytes, levels, rest)?;
        let (semicolon, rest) = take(bytes, rest, Word::Semicolon)?;
        let statement = Statement::Ideal {
            keyword,
            name,
            values,
            semicolon,
        };
        Ok((statement, rest))
    } else {
        let name = FunctionName {
            token: keyword,
            function: Function::Ideal,
        };
        let (base, rest) = called(alloc, bytes, levels, name, tokens)?;
        printed(alloc, bytes, levels, base, rest)
    }
}

#[tactic(auto, unfolding(crate::specs::Inside::Reading::ideal_with))]
fn ideal_statement<'a>(
    alloc: Global,
    bytes: &[u8],
    levels: &mut Levels,
    tokens: &'a [Token],
) -> Result<(Statement, &'a [Token]), Stop<'a>>
    ensures value { spec.Gives bytes.now result (spec.ideal_with (spec.inside levels.old) (lexemes bytes.now tokens.now)) }
    ensures shorter { IfOk result (λ x. length x.1.now < length tokens.now) }
    ensures same { OnOk result (levels.new ≡ levels.old) }
{
    let (keyword, rest) = take(bytes, tokens, Word::Function(Function::Ideal))?;
    after_ideal(alloc, bytes, levels, keyword, rest)
}

#[tactic(auto, unfolding(crate::specs::Inside::Reading::assign_with))]
fn assign<'a>(
    alloc: Global,
    bytes: &[u8],
    levels: &mut Levels,
    name: Token,
    tokens: &'a [Token],
) -> Result<(Statement, &'a [Token]), Stop<'a>>
    ensures value { spec.Gives bytes.now result (spec.assign_with (spec.inside levels.old) name (lexemes bytes.now tokens.now)) }
    ensures shorter { IfOk result (λ x. length x.1.now < length tokens.now) }
    ensures same { OnOk result (levels.new ≡ levels.old) }
{
    let (equals, rest) = take(bytes, tokens, Word::Equals)?;
    let (list, rest) = list(alloc, bytes, levels, rest)?;
    let list = Boxed::new(alloc, list)?;
    let (semicolon, rest) = take(bytes, rest, Word::Semicolon)?;
    let statement = Statement::Assign {
        name,
        equals,
        list,
        semicolon,
    };
    Ok((statement, rest))
}

#[tactic(auto, unfolding(crate::specs::Inside::Reading::assign_entry_with))]
fn assign_entry<'a>(
    alloc: Global,
    bytes: &[u8],
    levels: &mut Levels,
    name: Token,
    index: Index,
    tokens: &'a [Token],
) -> Result<(Statement, &'a [Token]), Stop<'a>>
    ensures value { spec.Gives bytes.now result (spec.assigned_entry (spec.inside levels.old) name index index.second (lexemes bytes.now tokens.now)) }
    ensures shorter { IfOk result (λ x. length x.1.now < length tokens.now) }
    ensures same { OnOk result (levels.new ≡ levels.old) }
{
    let Index {
        opening,
        first: row,
        second,
        closing,
    } = index;
    let Some(second) = second else {
        return Err(Stop::Unexpected(tokens));
    };
    let (equals, rest) = take(bytes, tokens, Word::Equals)?;
    let (value, rest) = expr(alloc, bytes, levels, rest)?;
    let value = Boxed::new(alloc, value)?;
    let (semicolon, rest) = take(bytes, rest, Word::Semicolon)?;
    let statement = Statement::AssignEntry {
        name,
        opening,
        row,
        comma: second.comma,
        column: second.token,
        closing,
        equals,
        value,
        semicolon,
    };
    Ok((statement, rest))
}

/// Behind a name and its index.
#[tactic(auto, unfolding(crate::specs::Inside::Reading::after_name))]
fn after_name<'a>(
    alloc: Global,
    bytes: &[u8],
    levels: &mut Levels,
    name: Token,
    index: Option<Boxed<Index>>,
    tokens: &'a [Token],
) -> Result<(Statement, &'a [Token]), Stop<'a>>
    ensures value { spec.Gives bytes.now result (spec.after_name (spec.inside levels.old) name index (lexemes bytes.now tokens.now)) }
    ensures shorter { IfOk result (λ x. length x.1.now < length tokens.now) }
    ensures same { OnOk result (levels.new ≡ levels.old) }
{
    if next_is(bytes, tokens, Word::Equals) {
        match index {
            None => assign(alloc, bytes, levels, name, tokens),
            Some(index) => assign_entry(alloc, bytes, levels, name, index.into_inner(), tokens),
        }
    } else {
        printed(alloc, bytes, levels, Base::Name { name, index }, tokens)
    }
}

#[tactic(auto, unfolding(crate::specs::Inside::Reading::named_with))]
fn named_statement<'a>(
    alloc: Global,
    bytes: &[u8],
    levels: &mut Levels,
    tokens: &'a [Token],
) -> Result<(Statement, &'a [Token]), Stop<'a>>
    ensures value { spec.Gives bytes.now result (spec.named_with (spec.inside levels.old) (lexemes bytes.now tokens.now)) }
    ensures shorter { IfOk result (λ x. length x.1.now < length tokens.now) }
    ensures same { OnOk result (levels.new ≡ levels.old) }
{
    let (name, rest) = take(bytes, tokens, Word::Name)?;
    let (index, rest) = maybe_index(alloc, bytes, rest)?;
    after_name(alloc, bytes, levels, name, index, rest)
}

#[tactic(auto, unfolding(crate::specs::Inside::Reading::expr_statement_with, crate::specs::Inside::Reading::print_with))]
fn expr_statement<'a>(
    alloc: Global,
    bytes: &[u8],
    levels: &mut Levels,
    tokens: &'a [Token],
) -> Result<(Statement, &'a [Token]), Stop<'a>>
    ensures value { spec.Gives bytes.now result (spec.expr_statement_with (spec.inside levels.old) (lexemes bytes.now tokens.now)) }
    ensures shorter { IfOk result (λ x. length x.1.now < length tokens.now) }
    ensures same { OnOk result (levels.new ≡ levels.old) }
{
    let (value, rest) = expr(alloc, bytes, levels, tokens)?;
    let value = Boxed::new(alloc, value)?;
    let (semicolon, rest) = take(bytes, rest, Word::Semicolon)?;
    Ok((Statement::Print { value, semicolon }, rest))
}

#[tactic(auto, unfolding(crate::specs::Inside::Reading::statement_with))]
pub fn statement<'a>(
    alloc: Global,
    bytes: &[u8],
    levels: &mut Levels,
    tokens: &'a [Token],
) -> Result<(Statement, &'a [Token]), Stop<'a>>
    ensures value { spec.Gives bytes.now result (spec.statement_with (spec.inside levels.old) (lexemes bytes.now tokens.now)) }
    ensures shorter { IfOk result (λ x. length x.1.now < length tokens.now) }
    ensures same { OnOk result (levels.new ≡ levels.old) }
{
    match start_of(next(bytes, tokens)) {
        Start::Empty => empty_statement(bytes, tokens),
        Start::Ring => ring_statement(alloc, bytes, tokens),
        Start::SetRing => set_ring_statement(bytes, tokens),
        Start::Def => def_statement(alloc, bytes, levels, tokens),
        Start::Poly => poly_statement(alloc, bytes, levels, tokens),
        Start::Ideal => ideal_statement(alloc, bytes, levels, tokens),
        Start::Module => module_statement(alloc, bytes, levels, tokens),
        Start::Matrix => matrix_statement(alloc, bytes, levels, tokens),
        Start::Option => option_statement(alloc, bytes, tokens),
        Start::Short => short_statement(bytes, tokens),
        Start::Quit => quit_statement(bytes, tokens),
        Start::Name => named_statement(alloc, bytes, levels, tokens),
        Start::Expr => expr_statement(alloc, bytes, levels, tokens),
    }
}
