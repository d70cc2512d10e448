//! Algebras in three variables as texts, and polynomials as texts. A term is its number and its three exponents, as
//! `2:1.0.0` for 2 x.

ghost use Rattle.std.specs.Prelude.{◌≡◌, ◌≤◌, ◌<◌, ◌++◌, ◌∷◌, [], length, IfSome};
ghost use Rattle.monomials.specs.Monomials.{degree};
ghost use Rattle.monomials.specs.Polynomials.{Each, IsPolynomial};

use algebra::{Algebra, Relations};
use gpoly::{GPoly, Term};
use monomials::{Block, Expo, Order};
use prime_field::Field;
use std::alloc::Global;

// y x = x y + 1
const WEYL_7: &str = "7|1 1 1|1:0.0.0|0:0.0.0|0:0.0.0";

const WEYL_2: &str = "2|1 1 1|1:0.0.0|0:0.0.0|0:0.0.0";
// y x = 3 x y, and y x = 3 x y + 1
const PLANE: &str = "7|3 1 1|0:0.0.0|0:0.0.0|0:0.0.0";

const Q_WEYL: &str = "7|3 1 1|1:0.0.0|0:0.0.0|0:0.0.0";
// y x = x y + y
const RIGHT: &str = "7|1 1 1|1:0.1.0|0:0.0.0|0:0.0.0";
// sl2 in e, f and h: f e = e f - h, h e = e h + 2 e, h f = f h - 2 f
const SL2: &str = "32003|1 1 1|32002:0.0.1|2:1.0.0|32001:0.1.0";

// An exponent, up to 4095.
fn exponent(text: Option<&str>) -> Option<u16>
    ensures { IfSome result (λ e. e ≤ 4095) }
{
    let exponent = text?.parse::<u16>().ok()?;
    if exponent > 4095 {
        return None;
    }
    Some(exponent)
}

// The monomial with these exponents, of a degree up to 4095.
fn monomial(text: &str) -> Option<Expo>
    ensures vars { IfSome result (λ m. length m ≡ 3) }
    ensures small { IfSome result (λ m. degree m ≤ 4095) }
{
    let mut parts = text.split('.');
    let x = exponent(parts.next())?;
    let y = exponent(parts.next())?;
    let z = exponent(parts.next())?;
    if x + y + z > 4095 {
        return None;
    }
    Some(Expo::of(&[x, y, z]))
}

// The polynomial with one term.
fn term(alloc: Global, field: Field, order: &Order, text: &str) -> Option<GPoly>
    requires { order.now.vars ≡ 3 }
    ensures { IfSome result (λ f. IsPolynomial field order.now f) }
{
    let (number, exponents) = text.split_once(':')?;
    let coef = field.from_int(number.parse::<u64>().ok()?);
    let mono = monomial(exponents)?;
    GPoly::from_terms(alloc, field, order, &[Term { coef, mono }]).ok()
}

/// The sum of terms, parted by spaces.
pub fn poly(alloc: Global, field: Field, order: &Order, text: &str) -> Option<GPoly>
    requires { order.now.vars ≡ 3 }
    ensures { IfSome result (λ f. IsPolynomial field order.now f) }
{
    let mut sum = GPoly::zero(alloc);
    for piece in text.split(' ') {
        let part = term(alloc, field, order, piece)?;
        sum = sum.add(alloc, field, order, &part).ok()?;
    }
    Some(sum)
}

fn push<T: Drop>(items: &mut Vec<T>, item: T) -> Option<()>
    ensures { IfSome result (λ _. items.new.items ≡ items.old.items ++ item ∷ []) }
{
    items.push(item).ok()
}

// The numbers of a text, parted by spaces.
fn numbers(alloc: Global, field: Field, text: &str) -> Option<Vec<u32>>
    ensures { IfSome result (λ cs. Each (λ c. c < field) cs.items) }
{
    let mut numbers = Vec::new(alloc);
    for word in text.split(' ') {
        let number = field.from_int(word.parse::<u64>().ok()?);
        push(&mut numbers, number)?;
    }
    Some(numbers)
}

// The polynomials of a text, parted by bars.
fn polys(alloc: Global, field: Field, order: &Order, text: &str) -> Option<Vec<GPoly>>
    requires { order.now.vars ≡ 3 }
    ensures { IfSome result (λ fs. Each (IsPolynomial field order.now) fs.items) }
{
    let mut polys = Vec::new(alloc);
    for piece in text.split('|') {
        let part = poly(alloc, field, order, piece)?;
        push(&mut polys, part)?;
    }
    Some(polys)
}

// The algebra of this characteristic, with the numbers and polynomials of the pairs (1, 2), (1, 3) and (2, 3), under dp.
fn algebra(alloc: Global, field: Field, relations: &str) -> Option<Algebra>
    ensures { IfSome result (λ a. a.order.vars ≡ 3) }
{
    let (c, d) = relations.split_once('|')?;
    let order = Order::new(alloc, &[Block::DegRev { len: 3 }], 3).ok()?;
    let c = numbers(alloc, field, c)?;
    let d = polys(alloc, field, &order, d)?;
    if c.len() != 3 || d.len() != 3 {
        return None;
    }
    Algebra::new(alloc, field, order, 3, Relations { c, d }).ok()
}

// The text of the algebra of this name.
fn text_of(name: &str) -> &str {
    match name {
        "weyl 7" => WEYL_7,
        "weyl 2" => WEYL_2,
        "plane" => PLANE,
        "q-weyl" => Q_WEYL,
        "right" => RIGHT,
        _ => SL2,
    }
}

/// The algebra of this name.
pub fn named(alloc: Global, name: &str) -> Option<Algebra>
    ensures { IfSome result (λ a. a.order.vars ≡ 3) }
{
    let (characteristic, relations) = text_of(name).split_once('|')?;
    let field = Field::of(characteristic.parse::<u32>().ok()?).ok()?;
    algebra(alloc, field, relations)
}

/// The polynomial ring in 16 variables, modulo 7 and under dp.
pub fn ring_in_sixteen(alloc: Global) -> Option<Algebra> {
    let order = Order::new(alloc, &[Block::DegRev { len: 16 }], 16).ok()?;
    Algebra::commuting(alloc, Field::of(7).ok()?, order, 16).ok()
}

/// Whether a polynomial is that of a text.
pub fn is_poly(alloc: Global, algebra: &Algebra, f: &GPoly, text: &str) -> Option<bool>
    requires { algebra.now.order.vars ≡ 3 }
{
    let want = poly(alloc, algebra.field(), algebra.order(), text)?;
    Some(f.equals(&want))
}
