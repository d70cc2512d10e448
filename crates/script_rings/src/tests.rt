//! Worked rings. The tables are texts, where `~` is a line feed: what a ring statement and relations are answered.

ghost use Rattle.std.specs.Prelude.{◌≡◌, ◌≤◌, ◌++◌, [], ◌∷◌, IfOk, OnOk, IsTrue, length, map, true};
ghost use Rattle.monomials.specs.Polynomials.{Each, IsPolynomial};
ghost use Rattle.plural_lexer.specs.Letters.{is_name_byte};
ghost use Rattle.plural_syntax.specs.Words.{text_of};
ghost use Rattle.plural_text.specs.Names.{IsName};
ghost use Rattle.script_model.specs.Statements as spec;
ghost use Rattle.script_values.specs.Values.{ArePolynomials, IsValueOf};

use super::*;
use gpoly::GPoly;
use plural_lexer::{is_letter, is_name_byte, tokens};
use plural_syntax::{Order, Script, Statement, TokenAfter, Vars, parse};
use plural_text::{read_poly, ring_text};
use run_records::Row;
use script_model::values::{Refusal, Value};
use script_values::refusals::write_refusal;
use script_values::tokens::{number, text};
use script_values::{Ring, Stop};
use sqlite_items::Items;
use std::alloc::{AllocError, Global};
use std::test::Fail;

fn bytes_of(alloc: Global, text: &str) -> Result<Vec<u8>, Fail>
    ensures { IfOk result (λ bytes. length bytes.items ≤ 1048576) }
{
    let mut bytes = Vec::new(alloc);
    for byte in text.as_bytes() {
        bytes.push(if *byte == b'~' { b'\n' } else { *byte })?;
    }
    if bytes.len() > 1048576 {
        return Err("a text of a table is short".into());
    }
    Ok(bytes)
}

fn is_name(name: &[u8]) -> bool
    ensures { IsTrue result → IsName name.now }
{
    match name.split_first() {
        Some((first, rest)) => is_letter(*first) && are_name_bytes(rest),
        None => false,
    }
}

fn are_name_bytes(bytes: &[u8]) -> bool
    ensures { IsTrue result → Each (λ b. is_name_byte b ≡ true) bytes.now }
{
    let mut left = bytes;
    while let Some((byte, rest)) = left.split_first() {
        if !is_name_byte(*byte) {
            return false;
        }
        left = rest;
    }
    true
}

fn are_names(bytes: &[u8], vars: &Vars) -> bool
    ensures { IsTrue result → Each IsName (spec.names_of bytes.now vars.now) }
{
    match vars {
        Vars::One { name } => is_name(text(bytes, name)),
        Vars::Many { names } => {
            is_name(text(bytes, &names.list.first)) && more_names(bytes, names.list.more.as_slice())
        }
    }
}

fn more_names(bytes: &[u8], more: &[TokenAfter]) -> bool
    ensures { IsTrue result → Each IsName (map (text_of bytes.now) (map (λ a. a.token) more.now)) }
{
    let mut left = more;
    while let Some((after, rest)) = left.split_first() {
        if !is_name(text(bytes, &after.token)) {
            return false;
        }
        left = rest;
    }
    true
}

fn script_of(alloc: Global, bytes: &[u8]) -> Result<Script, Fail>
    requires { length bytes.now ≤ 1048576 }
{
    let tokens = tokens(alloc, bytes)?;
    Ok(parse(alloc, bytes, &tokens)?)
}

// The ring of a ring statement.
fn ring_of(alloc: Global, statement: &str) -> Result<Result<Ring, Stop>, Fail> {
    let bytes = bytes_of(alloc, statement)?;
    let script = script_of(alloc, &bytes)?;
    match script.statements.as_slice().first() {
        Some(
            Statement::Ring {
                characteristic,
                vars,
                order,
                ..
            },
        ) => {
            let vars = vars.get();
            if !are_names(&bytes, vars) {
                return Err("variables have names".into());
            }
            let p = number(&bytes, characteristic);
            Ok(new_ring(alloc, &bytes, p, vars, order.get()))
        }
        _ => Err("a line begins with a ring statement".into()),
    }
}

// The text of a ring, or the line of its refusal.
fn answer(alloc: Global, ring: &Result<Ring, Stop>) -> Result<Vec<u8>, Fail> {
    match ring {
        Ok(ring) => Ok(ring_text(alloc, ring.algebra(), ring.names(), ring.blocks())?),
        Err(Stop::Refused(refusal)) => {
            let mut text = Vec::new(alloc);
            write_refusal(&mut text, 1, refusal)?;
            Ok(text)
        }
        Err(Stop::Memory) => Err("there is memory".into()),
    }
}

// A polynomial of the ring.
fn poly(alloc: Global, ring: &Ring, text: &str) -> Result<GPoly, Fail>
    ensures { IfOk result (λ f. IsPolynomial ring.now.algebra.p ring.now.algebra.order f) }
{
    Ok(read_poly(alloc, ring.algebra(), ring.names(), text.as_bytes())?)
}

fn push(polys: &mut Vec<GPoly>, poly: GPoly) -> Result<(), AllocError>
    ensures { OnOk result (polys.new.items ≡ polys.old.items ++ poly ∷ []) }
{
    polys.push(poly)?;
    Ok(())
}

// The row of the polynomials between the commas.
fn row(alloc: Global, ring: &Ring, text: &str) -> Result<Row, Fail>
    ensures { IfOk result (λ r. ArePolynomials ring.now.algebra r) }
{
    let mut entries = Vec::new(alloc);
    for piece in text.split(',') {
        let entry = poly(alloc, ring, piece)?;
        push(&mut entries, entry)?;
    }
    Ok(Row { entries })
}

// A matrix as its rows with `;` between them, or a polynomial.
fn value_of(alloc: Global, ring: &Ring, text: &str) -> Result<Value, Fail>
    ensures { IfOk result (λ v. IsValueOf ring.now.algebra v) }
{
    if !text.contains(',') {
        return Ok(Value::Poly(poly(alloc, ring, text)?));
    }
    let mut rows = Items::new(alloc);
    for piece in text.split(';') {
        let entries = row(alloc, ring, piece)?;
        rows.push(entries)?;
    }
    Ok(Value::Matrix(rows))
}

// What the ring with these relations is answered. A ring that is made so is refused by `Kind`.
fn related_text(alloc: Global, ring: &Ring, c: &str, d: &str) -> Result<Vec<u8>, Fail> {
    let made = related(alloc, ring, c, d)?;
    if let Ok(made) = &made {
        match related(alloc, made, "1", "0")? {
            Err(Stop::Refused(Refusal::Kind)) => {}
            _ => return Err("relations are given once".into()),
        }
    }
    answer(alloc, &made)
}

fn related(alloc: Global, ring: &Ring, c: &str, d: &str) -> Result<Result<Ring, Stop>, Fail> {
    let c = value_of(alloc, ring, c)?;
    let d = value_of(alloc, ring, d)?;
    Ok(nc_ring(alloc, ring, &c, &d))
}

const RINGS: &str = "\
ring r=7,x,dp;|// characteristic 7~// variables x~// order (dp(1))~
ring r=8,x,dp;|? line 1: Characteristic 8~
ring r=4294967303,(x,x),dp;|? line 1: Characteristic 4294967303~
ring r=7,(a,b,c,d,e,f,g,h,i,j,k,l,m,n,o,p),(a(1,2),wp(1,1),lp,C);|// characteristic 7~// variables a,b,c,d,e,f,g,h,i,j,k,l,m,n,o,p~// order (a(1,2),wp(1,1),lp(14))~
ring r=7,(a,b,c,d,e,f,g,h,i,j,k,l,m,n,o,p,p),lp(3);|? line 1: Limit~
ring r=7,(x,y,z,y,x),lp(3);|? line 1: Taken x~
ring r=7,(x,y,z),(c,dp);|? line 1: BadOrder~
ring r=7,(x,y,z),(dp,c(1));|? line 1: BadOrder~
ring r=7,(x,y,z),(lp(2),Dp(2));|? line 1: BadOrder~
ring r=7,(x,y,z),(lp(999999999999999999),lp(999999999999999999));|? line 1: BadOrder~
ring r=7,(x,y,z),(Wp(1,0),dp);|? line 1: BadOrder~
ring r=7,(x,y,z),(Wp(1,65535),Dp(1),c);|// characteristic 7~// variables x,y,z~// order (Wp(1,65535),Dp(1))~";

#[test]
fn rings(rt: HostRuntime) -> Result<(), Fail> {
    let alloc = rt.alloc();
    for line in RINGS.lines() {
        let (statement, expected) = line.split_once('|').ok_or("a line has an answer")?;
        let ring = ring_of(alloc, statement)?;
        let text = answer(alloc, &ring)?;
        let expected = bytes_of(alloc, expected)?;
        assert_eq!(rt; str::from_utf8(&text)?, str::from_utf8(&expected)?);
    }
    Ok(())
}

const RELATIONS: &str = "\
ring r=7,(x,d),dp;|1|1|// characteristic 7~// variables x,d~// order (dp(2))~// d*x=x*d+1~
ring r=32003,(e,f,h),dp;|1|0,-h,2*e;0,0,-2*f;0,0,0|// characteristic 32003~// variables e,f,h~// order (dp(3))~// f*e=e*f-h~// h*e=e*h+2*e~// h*f=f*h-2*f~
ring r=7,(w,x,y,z),lp;|0,1,2,3;0,0,-3,-2;0,0,0,-1;0,0,0,0|0|// characteristic 7~// variables w,x,y,z~// order (lp(4))~// y*w=2*w*y~// z*w=3*w*z~// y*x=-3*x*y~// z*x=-2*x*z~// z*y=-y*z~
ring r=7,(x,y),dp;|x|0|? line 1: Kind~
ring r=7,x,dp;|x|0|? line 1: Kind~
ring r=7,(x,y),dp;|0,x;0,0|0|? line 1: Kind~
ring r=7,(x,y),dp;|1|0,1,0;0,0,0|? line 1: Kind~
ring r=7,(x,y),dp;|0|0|? line 1: Coefficient 1 2~
ring r=7,(x,y),dp;|1|x^3|? line 1: Profile 1 2~
ring r=7,(x,y),lp;|1|x^2|? line 1: Ordering 1 2~
ring r=7,(x,y,z),dp;|2|0,z,0;0,0,0;0,0,0|? line 1: NonDegeneracy 1 2 3 3*z^2~";

#[test]
fn relations(rt: HostRuntime) -> Result<(), Fail> {
    let alloc = rt.alloc();
    for line in RELATIONS.lines() {
        let (statement, rest) = line.split_once('|').ok_or("a line has relations")?;
        let (c, rest) = rest.split_once('|').ok_or("a line has numbers")?;
        let (d, expected) = rest.split_once('|').ok_or("a line has an answer")?;
        let Ok(ring) = ring_of(alloc, statement)? else {
            return Err("the ring of the variables is made".into());
        };
        let text = related_text(alloc, &ring, c, d)?;
        let expected = bytes_of(alloc, expected)?;
        assert_eq!(rt; str::from_utf8(&text)?, str::from_utf8(&expected)?);
    }
    Ok(())
}
