//! Functions at worked arguments, in the Weyl algebra in x and d modulo 7.

ghost use Rattle.std.specs.Prelude.{◌≡◌, ◌≤◌, length, map, string_bytes, IfOk};
ghost use Rattle.monomials.specs.Monomials.{degree};
ghost use Rattle.monomials.specs.Polynomials.{Each};
ghost use Rattle.plural_text.specs.Names.{AreNames};
ghost use Rattle.script_values.specs.Values.{ArePolynomials, IsValueOf};

use super::*;
use algebra::{Algebra, Relations};
use commit_core::OneWorker;
use gpoly::{GPoly, Term};
use gproduct::Table;
use monomials::{Block, Expo, Order};
use plural_text::read_poly;
use prime_field::Field;
use script_values::printing::printed;
use script_values::refusals::write_refusal;
use script_values::{Budget, Environment, Ring};
use std::alloc::{AllocError, Global};
use std::test::Fail;

// The algebra in x and d with d x = x d and this term.
fn algebra(alloc: Global, mono: Expo) -> Result<Algebra, Fail>
    requires vars { length mono ≡ 2 }
    requires small { degree mono ≤ 4095 }
    ensures { IfOk result (λ a. a.order.vars ≡ 2) }
{
    let field = Field::of(7)?;
    let order = Order::new(alloc, &[Block::DegRev { len: 2 }], 2)?;
    let term = Term { coef: 1, mono };
    let more = GPoly::from_terms(alloc, field, &order, &[term])?;
    let c = Vec::from_array(alloc, [1])?;
    let d = Vec::from_array(alloc, [more]).map_err(AllocError::from)?;
    Ok(Algebra::new(alloc, field, order, 2, Relations { c, d })?)
}

// The names of its variables.
fn names(alloc: Global) -> Result<Vec<String>, AllocError>
    ensures { IfOk result (λ names. AreNames 2 (map string_bytes names.items)) }
{
    let x = String::from_str(alloc, "x")?;
    let d = String::from_str(alloc, "d")?;
    Vec::from_array(alloc, [x, d]).map_err(AllocError::from)
}

fn ring(alloc: Global, mono: Expo) -> Result<Ring, Fail>
    requires vars { length mono ≡ 2 }
    requires small { degree mono ≤ 4095 }
{
    let algebra = algebra(alloc, mono)?;
    let names = names(alloc)?;
    Ok(Ring::new(alloc, names, Vec::new(alloc), algebra, true)?)
}

// The polynomials between the commas of a text.
fn polys(alloc: Global, ring: &Ring, text: &str) -> Result<Items<GPoly>, Fail>
    ensures { IfOk result (ArePolynomials ring.now.algebra) }
{
    let mut polys = Items::new(alloc);
    for piece in text.split(',') {
        let poly = read_poly(alloc, ring.algebra(), ring.names(), piece.as_bytes())?;
        polys.push(poly)?;
    }
    Ok(polys)
}

// A polynomial, or between brackets an ideal, or else lines.
fn value(alloc: Global, ring: &Ring, text: &str) -> Result<Value, Fail>
    ensures { IfOk result (IsValueOf ring.now.algebra) }
{
    if text == "lines" {
        return Ok(Value::Lines(Items::new(alloc)));
    }
    let Some(list) = text.strip_prefix('<') else {
        let poly = read_poly(alloc, ring.algebra(), ring.names(), text.as_bytes())?;
        return Ok(Value::Poly(poly));
    };
    let generators = polys(alloc, ring, list)?;
    if generators.len() > 4096 {
        return Err("an ideal has at most 4096 generators".into());
    }
    Ok(Value::Ideal(generators))
}

// The values between the blanks of a text.
fn values(alloc: Global, ring: &Ring, text: &str) -> Result<Items<Value>, Fail>
    ensures { IfOk result (Each (IsValueOf ring.now.algebra)) }
{
    let mut values = Items::new(alloc);
    for piece in text.split_whitespace() {
        let one = value(alloc, ring, piece)?;
        values.push(one)?;
    }
    Ok(values)
}

fn function(name: &str) -> Function {
    match name {
        "NF" => Function::Nf,
        "reduce" => Function::Reduce,
        "ideal" => Function::Ideal,
        "std" => Function::Std,
        "twostd" => Function::TwoStd,
        "cofactors" => Function::Cofactors,
        "syz" => Function::Syz,
        "twochain" => Function::TwoChain,
        "eliminate" => Function::Eliminate,
        _ => Function::Summary,
    }
}

// What is printed of a function at these arguments: its value, or its refusal.
fn answer(
    alloc: Global,
    ring: &Ring,
    budget: u32,
    function: Function,
    arguments: Items<Value>,
) -> Result<Vec<u8>, Fail>
    requires some { 1 ≤ budget }
    requires of_ring { Each (IsValueOf ring.now.algebra) arguments }
{
    let environment = Environment::new(alloc);
    let scope = Scope {
        alloc,
        bytes: b"",
        budget: Budget::of(budget),
        environment: &environment,
        ring,
    };
    let table = Table::new(alloc, ring.algebra())?;
    let mut seat = table.seat(alloc)?;
    match apply(
        &scope,
        &mut OneWorker::new(),
        &mut seat,
        function,
        arguments,
    ) {
        Ok(value) => {
            let text = printed(alloc, &environment, ring, b"_", &value)?;
            Ok(Vec::from_slice(alloc, text.as_slice())?)
        }
        Err(Stop::Refused(refusal)) => {
            let mut text = Vec::new(alloc);
            write_refusal(&mut text, 1, &refusal)?;
            Ok(text)
        }
        Err(Stop::Memory) => Err("memory is wanting".into()),
    }
}

// A function, its arguments, and the lines of its answer.
const ROWS: &str = "\
NF|x*d x|-1
reduce|x*d+d^2 d|0
NF|1 <x,d|1
NF|<x^2,d,x*d+1 x|_[1]=0;_[2]=d;_[3]=0
NF|x <0|x
NF|x|? line 1: Kind
NF|x x x|? line 1: Kind
NF|lines x|? line 1: Kind
NF|x lines|? line 1: Kind
ideal|x <d,x 0|_[1]=x;_[2]=d;_[3]=x;_[4]=0
ideal|x lines|? line 1: Kind
std|x*d d^2|_[1]=d
std|x^4095 d^4095|? line 1: DegreeOver
twostd|x|_[1]=1
twostd|<d^7|_[1]=d^7
twostd|x lines|? line 1: Kind
twostd|x^4095|? line 1: DegreeOver
cofactors|x*d d^2|_[1]=[d,-x]
summary|x*d d^2|entries 5 new 3 zero 2 skipped 0 list 1
syz|x d|_[1]=[-d^2,x*d+2];_[2]=[-x*d+1,x^2]
syz|<d,0|_[1]=[0,1]
syz|lines|? line 1: Kind
syz|x^4095 d^4095|? line 1: DegreeOver
twochain|x|c[1]=(1)*(f[1]);c[2]=(-1)*(c[1]*d-(d)*c[1]);t[1]=c[2]
twochain|lines x|? line 1: Kind
twochain|x^4095|? line 1: DegreeOver
eliminate|<x*d,d^2 x|_[1]=d
eliminate|x*d 3*x|_[1]=0
eliminate|x*d x*d|_[1]=0
eliminate|x|? line 1: Kind
eliminate|x x x|? line 1: Kind
eliminate|x 3|? line 1: Kind
eliminate|x 0|? line 1: Kind
eliminate|x x+d|? line 1: Kind
eliminate|x <d|? line 1: Kind
eliminate|lines x|? line 1: Kind
eliminate|<x^4095,d^4095 x|? line 1: DegreeOver";

// The first row that is answered otherwise in this ring, by runs with so many entries at most.
fn other<'a>(
    alloc: Global,
    ring: &Ring,
    budget: u32,
    rows: &'a str,
) -> Result<Option<&'a str>, Fail>
    requires { 1 ≤ budget }
{
    for row in rows.lines() {
        let fields: Vec<&str> = row.split('|').collect(alloc)?;
        let [name, arguments, lines] = fields.as_slice() else {
            return Err("a row has three fields".into());
        };
        let arguments = values(alloc, ring, arguments)?;
        let text = answer(alloc, ring, budget, function(name), arguments)?;
        let text = text.as_slice().trim_ascii();
        let same = text
            .split(|b| *b == b'\n')
            .eq(lines.as_bytes().split(|b| *b == b';'));
        if !same {
            return Ok(Some(row));
        }
    }
    Ok(None)
}

#[test]
fn worked_functions(rt: HostRuntime) -> Result<(), Fail> {
    let weyl = ring(rt.alloc(), Expo::one(2))?;
    assert_eq!(rt; other(rt.alloc(), &weyl, 100, ROWS)?, None);
    Ok(())
}

// The same, where a run has one entry at most.
const SPENT: &str = "\
std|x d|? line 1: BudgetSpent 1
twostd|x d|? line 1: BudgetSpent 1
syz|x d|? line 1: BudgetSpent 1
twochain|x d|? line 1: BudgetSpent 1
eliminate|<x,d x|? line 1: BudgetSpent 1
syz|x|_[1]=0";

#[test]
fn runs_of_one_entry(rt: HostRuntime) -> Result<(), Fail> {
    let weyl = ring(rt.alloc(), Expo::one(2))?;
    assert_eq!(rt; other(rt.alloc(), &weyl, 1, SPENT)?, None);
    Ok(())
}

// In the algebra with d x = x d + d^2: where d counts first, d^2 is above x d.
const PLANE: &str = "\
eliminate|<x,d d|? line 1: NoElimination 1 2
eliminate|<x,d x*d|_[1]=0
eliminate|<x,d 3|? line 1: Kind
eliminate|x x|_[1]=0
twostd|d|_[1]=d";

#[test]
fn a_variable_that_is_not_eliminated(rt: HostRuntime) -> Result<(), Fail> {
    let plane = ring(rt.alloc(), Expo::of(&[0, 2]))?;
    assert_eq!(rt; other(rt.alloc(), &plane, 100, PLANE)?, None);
    Ok(())
}
