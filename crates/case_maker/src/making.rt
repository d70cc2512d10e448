//! The text of a script.

ghost use Rattle.std.specs.Prelude.{◌≡◌, ◌++◌, IfOk, OnOk};
ghost use Rattle.std.specs.Fmt.{decimal};
ghost use Rattle.case_maker.specs.Scripts.{draw_after, variable_text, product_text, sum_text, line_text, made_script};

use crate::drawing::{Draws, variable};
use itoa::Buffer;
use std::alloc::{AllocError, Global};

const HEADING: &str = "\
ring r = 32003,(x,y,a,b,z),dp;
matrix D[5][5];
D[1,3] = z; D[2,4] = z;
def H = nc_algebra(1,D);
setring H;
";

/// The script of the number k: the Heisenberg algebra in x, y, a, b, z, where z is central, and then
/// 1 + k mod 200 lines, each `summary(..)` of three sums of two products of a number from 1 to 100
/// and two variables. Equal numbers give equal scripts.
pub fn script_of(alloc: Global, k: u32) -> Result<Vec<u8>, AllocError>
    ensures value { IfOk result (λ text. text.items ≡ made_script k) }
{
    let mut text = Vec::from_slice(alloc, HEADING.as_bytes())?;
    let mut draws = Draws::new(k);
    for _line in 0..1 + k % 200 {
        write_line(&mut text, &mut draws)?;
    }
    Ok(text)
}

// Appends a line of three sums.
#[tactic(auto, using(crate::proofs::Draws::draws_18))]
fn write_line(text: &mut Vec<u8>, draws: &mut Draws) -> Result<(), AllocError>
    ensures text { OnOk result (text.new.items ≡ text.old.items ++ line_text draws.old.last) }
    ensures draws { OnOk result (draws.new.last ≡ draw_after 18 draws.old.last) }
{
    text.extend_from_slice(b"summary(")?;
    write_sum(text, draws)?;
    text.push(b',')?;
    write_sum(text, draws)?;
    text.push(b',')?;
    write_sum(text, draws)?;
    text.extend_from_slice(b");\n")?;
    Ok(())
}

// Appends a sum of two products.
#[tactic(auto, using(crate::proofs::Draws::draws_6), unfolding(crate::specs::Scripts::sum_text))]
fn write_sum(text: &mut Vec<u8>, draws: &mut Draws) -> Result<(), AllocError>
    ensures text { OnOk result (text.new.items ≡ text.old.items ++ sum_text draws.old.last) }
    ensures draws { OnOk result (draws.new.last ≡ draw_after 6 draws.old.last) }
{
    write_product(text, draws)?;
    text.push(b'+')?;
    write_product(text, draws)
}

// Appends a product of a number and two variables.
#[tactic(auto, unfolding(crate::specs::Scripts::draw_after))]
fn write_product(text: &mut Vec<u8>, draws: &mut Draws) -> Result<(), AllocError>
    ensures text { OnOk result (text.new.items ≡ text.old.items ++ product_text draws.old.last) }
    ensures draws { OnOk result (draws.new.last ≡ draw_after 3 draws.old.last) }
{
    let number = 1 + draws.draw() % 100;
    let first = variable(draws.draw());
    let second = variable(draws.draw());
    write_number(text, number)?;
    text.push(b'*')?;
    text.push(first)?;
    text.push(b'*')?;
    text.push(second)?;
    Ok(())
}

// Appends a number in decimal.
fn write_number(text: &mut Vec<u8>, number: u32) -> Result<(), AllocError>
    ensures { OnOk result (text.new.items ≡ text.old.items ++ decimal number) }
{
    let mut digits = Buffer::new();
    text.extend_from_slice(digits.format(number).as_bytes())
}
