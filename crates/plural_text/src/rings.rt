//! The text of a ring.

ghost use Rattle.std.specs.Prelude.{◌≡◌, ◌+◌, ◌-◌, ◌<◌, ◌≤◌, ◌++◌, map, length, string_bytes, codes, IfOk, OnOk};
ghost use Rattle.std.specs.List.{join_with_byte};
ghost use Rattle.std.specs.Fmt.{decimal};
ghost use Rattle.monomials.specs.Polynomials.{IsPolynomial};
ghost use Rattle.word_model.specs.RingTexts.{numbers_text, block_text, order_text, name_of, right_side, relation_line, relation_row, relation_lines, ring_text};
ghost use Rattle.plural_text.specs.Names.{AreNames};

use crate::appending::{write_comma, write_number};
use crate::polynomials::write_polynomial;
use algebra::Algebra;
use gpoly::{GPoly, Term};
use monomials::{Block, Expo};
use prime_field::Field;
use std::alloc::{AllocError, Global};

/// The text of a ring whose order was given by these blocks: lines for its characteristic, its
/// variables and its order, and one for each relation of two variables that do not commute.
pub fn ring_text(
    alloc: Global,
    alg: &Algebra,
    names: &[String],
    blocks: &[Block],
) -> Result<Vec<u8>, AllocError>
    requires names { AreNames alg.now.order.vars (map string_bytes names.now) }
    ensures { IfOk result (λ text. text.items ≡ ring_text alg.now (map string_bytes names.now) blocks.now) }
{
    let mut text = Vec::new(alloc);
    write_characteristic(&mut text, alg.field())?;
    write_variables(&mut text, names)?;
    write_order_line(&mut text, blocks)?;
    write_relations(alloc, &mut text, alg, names)?;
    Ok(text)
}

// Appends the line of the characteristic.
fn write_characteristic(text: &mut Vec<u8>, field: Field) -> Result<(), AllocError>
    ensures { OnOk result (text.new.items ≡ text.old.items ++ (codes "// characteristic " ++ (decimal field ++ codes "\n"))) }
{
    text.extend_from_slice(b"// characteristic ")?;
    write_number(text, field.p())?;
    text.push(b'\n')?;
    Ok(())
}

// Appends the line of the variables.
fn write_variables(text: &mut Vec<u8>, names: &[String]) -> Result<(), AllocError>
    ensures { OnOk result (text.new.items ≡ text.old.items
        ++ (codes "// variables " ++ (join_with_byte 44 (map string_bytes names.now) ++ codes "\n"))) }
{
    text.extend_from_slice(b"// variables ")?;
    for (index, name) in names.iter().enumerate() {
        write_comma(text, index)?;
        text.extend_from_slice(name.as_bytes())?;
    }
    text.push(b'\n')?;
    Ok(())
}

// Appends the line of the order.
fn write_order_line(text: &mut Vec<u8>, blocks: &[Block]) -> Result<(), AllocError>
    ensures { OnOk result (text.new.items ≡ text.old.items ++ (codes "// order " ++ (order_text blocks.now ++ codes "\n"))) }
{
    text.extend_from_slice(b"// order (")?;
    for (index, block) in blocks.iter().enumerate() {
        write_comma(text, index)?;
        write_block(text, block)?;
    }
    text.extend_from_slice(b")\n")
}

// Appends a block.
fn write_block(text: &mut Vec<u8>, block: &Block) -> Result<(), AllocError>
    ensures { OnOk result (text.new.items ≡ text.old.items ++ block_text block.now) }
{
    match block {
        Block::Extra { weights } => write_named(text, b"a", weights.as_slice()),
        Block::Lex { len } => write_named(text, b"lp", &[*len as u64]),
        Block::DegRev { len } => write_named(text, b"dp", &[*len as u64]),
        Block::DegLex { len } => write_named(text, b"Dp", &[*len as u64]),
        Block::WeightRev { weights } => write_named(text, b"wp", weights.as_slice()),
        Block::WeightLex { weights } => write_named(text, b"Wp", weights.as_slice()),
    }
}

// Appends the name of a block with its numbers.
fn write_named(text: &mut Vec<u8>, name: &[u8], numbers: &[u64]) -> Result<(), AllocError>
    ensures { OnOk result (text.new.items ≡ text.old.items ++ (name.now ++ numbers_text numbers.now)) }
{
    text.extend_from_slice(name)?;
    text.push(b'(')?;
    for (index, number) in numbers.iter().enumerate() {
        write_comma(text, index)?;
        write_number(text, *number)?;
    }
    text.push(b')')?;
    Ok(())
}

// Appends the lines of all relations.
fn write_relations(
    alloc: Global,
    text: &mut Vec<u8>,
    alg: &Algebra,
    names: &[String],
) -> Result<(), AllocError>
    requires names { AreNames alg.now.order.vars (map string_bytes names.now) }
    ensures { OnOk result (text.new.items ≡ text.old.items
        ++ relation_lines alg.now (map string_bytes names.now) 1 alg.now.order.vars) }
{
    let n = alg.n() as u8;
    for i in 1..n + 1 {
        write_relations_of(alloc, text, alg, names, i)?;
    }
    Ok(())
}

// Appends the lines of the relations of x_i with the variables behind it.
fn write_relations_of(
    alloc: Global,
    text: &mut Vec<u8>,
    alg: &Algebra,
    names: &[String],
    i: u8,
) -> Result<(), AllocError>
    requires names { AreNames alg.now.order.vars (map string_bytes names.now) }
    requires first { 1 ≤ i }
    requires last { i ≤ alg.now.order.vars }
    ensures { OnOk result (text.new.items ≡ text.old.items
        ++ relation_row alg.now (map string_bytes names.now) i (i + 1) (alg.now.order.vars - i)) }
{
    let n = alg.n() as u8;
    for j in i + 1..n + 1 {
        write_relation(alloc, text, alg, names, i, j)?;
    }
    Ok(())
}

// Appends the line of the relation of x_i and x_j, unless they commute.
fn write_relation(
    alloc: Global,
    text: &mut Vec<u8>,
    alg: &Algebra,
    names: &[String],
    i: u8,
    j: u8,
) -> Result<(), AllocError>
    requires names { AreNames alg.now.order.vars (map string_bytes names.now) }
    requires first { 1 ≤ i }
    requires pair { i < j }
    requires last { j ≤ alg.now.order.vars }
    ensures { OnOk result (text.new.items ≡ text.old.items ++ relation_line alg.now (map string_bytes names.now) i j) }
{
    if alg.c(i, j) == 1 && alg.d(i, j).is_zero() {
        return Ok(());
    }
    write_left_side(text, names, i, j)?;
    let right = right_side(alloc, alg, i, j)?;
    write_polynomial(text, alg, names, &right)?;
    text.push(b'\n')?;
    Ok(())
}

// Appends the left side of the line of the relation of x_i and x_j.
fn write_left_side(text: &mut Vec<u8>, names: &[String], i: u8, j: u8) -> Result<(), AllocError>
    requires first { 1 ≤ i }
    requires pair { i < j }
    requires last { j ≤ length names.now }
    ensures { OnOk result (text.new.items ≡ text.old.items
        ++ (codes "// " ++ (name_of (map string_bytes names.now) j
        ++ (codes "*" ++ (name_of (map string_bytes names.now) i ++ codes "="))))) }
{
    text.extend_from_slice(b"// ")?;
    text.extend_from_slice(name_of(names, j))?;
    text.push(b'*')?;
    text.extend_from_slice(name_of(names, i))?;
    text.push(b'=')?;
    Ok(())
}

// The name of the variable of this number.
fn name_of(names: &[String], v: u8) -> &[u8]
    requires first { 1 ≤ v }
    requires last { v ≤ length names.now }
    ensures { result.now ≡ name_of (map string_bytes names.now) v }
{
    names[v as usize - 1].as_bytes()
}

// c_ij x_i x_j + d_ij, to which x_j x_i is equal.
fn right_side(alloc: Global, alg: &Algebra, i: u8, j: u8) -> Result<GPoly, AllocError>
    requires first { 1 ≤ i }
    requires pair { i < j }
    requires last { j ≤ alg.now.order.vars }
    ensures value { IfOk result (λ r. r ≡ right_side alg.now i j) }
    ensures sorted { IfOk result (IsPolynomial alg.now.p alg.now.order) }
{
    let n = alg.n();
    let term = Term {
        coef: alg.c(i, j),
        mono: Expo::var(n, i).plus(&Expo::var(n, j)),
    };
    let leading = GPoly::from_terms(alloc, alg.field(), alg.order(), &[term])?;
    leading.add(alloc, alg.field(), alg.order(), alg.d(i, j))
}
