//! Worked lines of values and refusals, and the largest matrix.

ghost use Rattle.std.specs.Prelude.{IfOk};
ghost use Rattle.script_values.specs.Values.{ArePolynomials, IsValueOf};

use crate::assigning::matrix_of;
use crate::operations::constant;
use crate::printing::printed;
use crate::refusals::{status_of, write_refusal};
use crate::{Environment, Ring, Stop};
use algebra::Algebra;
use gpoly::GPoly;
use monomials::{Block, Order};
use prime_field::Field;
use script_model::values::{Refusal, Value};
use sqlite_items::Items;
use std::alloc::{AllocError, Global};
use std::test::Fail;

// A status, and words of a refusal.
const REFUSALS: &str = "\
1|NoRing
1|Name r
1|WrongRing I
1|Taken x
1|Kind
1|Index
1|ZeroDivisor
1|Characteristic 18446744073709551615
1|BadOrder
1|Limit
3|Coefficient 1 2
3|Profile 2 16
3|Ordering 1 3
3|NonDegeneracy 1 2 3 x*d-1
3|NoElimination 1 2
4|BudgetSpent 4294967295
4|BasisFull
4|DegreeOver
";

#[test]
fn refusals(rt: HostRuntime) -> Result<(), Fail> {
    let alloc = rt.alloc();
    for row in REFUSALS.lines() {
        let (status, words) = row.split_once('|').ok_or("a row has two fields")?;
        let refusal = refusal(alloc, words)?;
        assert_eq!(rt; status_of(&refusal), status.parse::<u8>()?, "{row}");
        let mut line = Vec::new(alloc);
        write_refusal(&mut line, 7, &refusal)?;
        let mut want = Vec::from_slice(alloc, b"? line 7: ")?;
        want.extend_from_slice(words.as_bytes())?;
        want.extend_from_slice(b"\n")?;
        assert_eq!(rt; line.as_slice(), want.as_slice(), "{row}");
    }
    Ok(())
}

// The refusal of these words.
fn refusal(alloc: Global, words: &str) -> Result<Refusal, Fail> {
    let parts: Vec<&str> = words.split(' ').collect(alloc)?;
    match parts.as_slice() {
        [word] => alone(word),
        ["Characteristic", p] => Ok(Refusal::Characteristic(p.parse()?)),
        ["BudgetSpent", budget] => Ok(Refusal::BudgetSpent(budget.parse()?)),
        [word, name] => named(word, Items::from_slice(alloc, name.as_bytes())?),
        [word, i, j] => of_pair(word, i.parse()?, j.parse()?),
        [_, i, j, k, rest] => Ok(Refusal::NonDegeneracy(
            i.parse()?,
            j.parse()?,
            k.parse()?,
            Items::from_slice(alloc, rest.as_bytes())?,
        )),
        _ => Err("a refusal has at most five words".into()),
    }
}

fn alone(word: &str) -> Result<Refusal, Fail> {
    Ok(match word {
        "NoRing" => Refusal::NoRing,
        "Kind" => Refusal::Kind,
        "Index" => Refusal::Index,
        "ZeroDivisor" => Refusal::ZeroDivisor,
        "BadOrder" => Refusal::BadOrder,
        "Limit" => Refusal::Limit,
        "BasisFull" => Refusal::BasisFull,
        "DegreeOver" => Refusal::DegreeOver,
        _ => return Err("no refusal is this word".into()),
    })
}

fn named(word: &str, name: Items<u8>) -> Result<Refusal, Fail> {
    match word {
        "Name" => Ok(Refusal::Name(name)),
        "WrongRing" => Ok(Refusal::WrongRing(name)),
        "Taken" => Ok(Refusal::Taken(name)),
        _ => Err("no refusal with a name has this word".into()),
    }
}

fn of_pair(word: &str, i: u8, j: u8) -> Result<Refusal, Fail> {
    match word {
        "Coefficient" => Ok(Refusal::Coefficient(i, j)),
        "Profile" => Ok(Refusal::Profile(i, j)),
        "Ordering" => Ok(Refusal::Ordering(i, j)),
        "NoElimination" => Ok(Refusal::NoElimination(i, j)),
        _ => Err("no refusal of a pair has this word".into()),
    }
}

// The ring of 7 elements in the variables x and d, which commute.
fn ring(alloc: Global) -> Result<Ring, Fail> {
    let mut names = Vec::new(alloc);
    names
        .push(String::from_str(alloc, "x")?)
        .map_err(AllocError::from)?;
    names
        .push(String::from_str(alloc, "d")?)
        .map_err(AllocError::from)?;
    let blocks = Vec::from_array(alloc, [Block::DegRev { len: 2 }]).map_err(AllocError::from)?;
    let order = Order::new(alloc, &blocks, 2)?;
    let algebra = Algebra::commuting(alloc, Field::of(7)?, order, 2)?;
    Ok(Ring::new(alloc, names, blocks, algebra, false)?)
}

// The numbers in a text, as polynomials.
fn numbers(alloc: Global, algebra: &Algebra, text: &str) -> Result<Items<GPoly>, Fail>
    ensures { IfOk result (ArePolynomials algebra.now) }
{
    let mut polys = Items::new(alloc);
    for number in text.split_whitespace() {
        polys.push(constant(alloc, algebra, number.parse()?)?)?;
    }
    Ok(polys)
}

// What is printed: a kind, a value of it, and its text, with `;` for a line feed.
const PRINTED: &str = "\
matrix|1 2 10|m[1,1]=1;m[1,2]=2;m[2,1]=3;m[2,2]=0;
module|1 2 10|m[1]=[1,2];m[2]=[3,0];
ring|0|// characteristic 7;// variables x,d;// order (dp(2));
ring|1|
";

#[test]
fn printed_values(rt: HostRuntime) -> Result<(), Fail> {
    let alloc = rt.alloc();
    let mut environment = Environment::new(alloc);
    environment.add_ring(alloc, b"r", ring(alloc)?)?;
    let ring = environment.ring(0).ok_or("there is a ring")?;
    for row in PRINTED.lines() {
        let fields: Vec<&str> = row.split('|').collect(alloc)?;
        let [kind, input, text] = fields.as_slice() else {
            return Err("a row has three fields".into());
        };
        let want = text.replace(alloc, ";", "\n")?;
        let value = value(alloc, ring.algebra(), kind, input)?;
        let made = printed(alloc, &environment, ring, b"m", &value)?;
        assert_eq!(rt; made.as_slice(), want.as_bytes(), "{row}");
    }
    Ok(())
}

// A matrix or module with two rows and columns, or the ring of a number.
fn value(alloc: Global, algebra: &Algebra, kind: &str, input: &str) -> Result<Value, Fail>
    ensures { IfOk result (IsValueOf algebra.now) }
{
    if kind == "ring" {
        return Ok(Value::Ring(input.parse()?));
    }
    match matrix_of(alloc, 2, 2, numbers(alloc, algebra, input)?) {
        Ok(Value::Matrix(rows)) if kind == "module" => Ok(Value::Module(rows)),
        Ok(value) => Ok(value),
        Err(_) => Err("there are too many numbers".into()),
    }
}

// As many ones.
fn ones(alloc: Global, algebra: &Algebra, count: usize) -> Result<Items<GPoly>, Fail> {
    let mut polys = Items::new(alloc);
    for _place in 0..count {
        polys.push(constant(alloc, algebra, 1)?)?;
    }
    Ok(polys)
}

#[test]
fn largest_matrix(rt: HostRuntime) -> Result<(), Fail> {
    let alloc = rt.alloc();
    let ring = ring(alloc)?;
    let full = matrix_of(alloc, 16, 16, ones(alloc, ring.algebra(), 256)?);
    let more = matrix_of(alloc, 16, 16, ones(alloc, ring.algebra(), 257)?);
    assert!(rt; matches!(full, Ok(Value::Matrix(_))));
    assert!(rt; matches!(more, Err(Stop::Refused(Refusal::Limit))));
    Ok(())
}
