//! Products by a table against products worked by rewriting words outside.

ghost use Rattle.std.specs.Prelude.{◌≡◌, ◌<◌};
ghost use Rattle.monomials.specs.Polynomials.{IsPolynomial};

use super::algebras::{is_poly, named, poly};
use crate::{Steps, Table, right_times, term_times, times};
use algebra::{Algebra, ProductFault};
use gpoly::GPoly;
use std::alloc::Global;
use std::marker::Brand;
use std::sync::ledger::{Blank, Ledger};
use std::test::Fail;

// An algebra; which product: of two factors, of the first's leading term and the second, or of the first and x; the factors, and
// the product. Degrees may add up to 4095. Two rows have powers
// without a closed form that are above those of a place.
const PRODUCTS: &str = "\
weyl 7/both/1:1.0.0 1:0.1.0/1:1.0.0 1:0.1.0/1:2.0.0 2:1.1.0 1:0.2.0 1:0.0.0
weyl 7/term/1:1.0.0 1:0.1.0/1:1.0.0 1:0.1.0/1:2.0.0 1:1.1.0
weyl 7/x/1:1.0.0 1:0.1.0/0:0.0.0/1:2.0.0 1:1.1.0 1:0.0.0
weyl 2/both/1:0.2.0/1:2.0.0 1:0.0.0/1:2.2.0 1:0.2.0
weyl 2/term/1:0.2.0/1:2.0.0 1:0.0.0/1:2.2.0 1:0.2.0
weyl 2/x/1:0.2.0/0:0.0.0/1:1.2.0
q-weyl/both/3:0.2.0/1:1.0.0/6:1.2.0 5:0.1.0
q-weyl/term/3:0.2.0/1:1.0.0/6:1.2.0 5:0.1.0
q-weyl/x/3:0.2.0/0:0.0.0/6:1.2.0 5:0.1.0
right/both/1:0.1.1/1:2.0.0/1:2.1.1 2:1.1.1 1:0.1.1
right/term/1:0.1.1/1:2.0.0/1:2.1.1 2:1.1.1 1:0.1.1
right/x/1:0.1.1/0:0.0.0/1:1.1.1 1:0.1.1
sl2/both/1:0.2.0 1:0.0.0/1:1.0.0/1:1.2.0 32001:0.1.1 1:1.0.0 2:0.1.0
sl2/term/1:0.2.0 1:0.0.0/1:1.0.0/1:1.2.0 32001:0.1.1 2:0.1.0
sl2/x/1:0.2.0 1:0.0.0/0:0.0.0/1:1.2.0 32001:0.1.1 1:1.0.0 2:0.1.0
sl2/both/1:0.18.0/1:2.0.0/1:2.18.0 31967:1.17.1 576:1.17.0 306:0.16.2 22517:0.16.1 9434:0.16.0
sl2/term/1:0.2.0/1:18.0.0/1:18.2.0 31967:17.1.1 31427:17.1.0 306:16.0.2 10098:16.0.1 19226:16.0.0
weyl 7/both/1:1365.0.0/1:1365.1365.0/1:2730.1365.0
weyl 7/term/1:1365.0.0/1:1365.1365.0/1:2730.1365.0
weyl 7/both/1:1365.0.0/1:1365.1365.1/DegreeOver
weyl 7/term/1:1365.0.0/1:1365.1365.1/DegreeOver
weyl 7/x/1:1365.0.0/0:0.0.0/1:1366.0.0
weyl 7/both/1:1365.1365.1365/1:0.0.0/1:1365.1365.1365
weyl 7/term/1:1365.1365.1365/1:0.0.0/1:1365.1365.1365
weyl 7/x/1:1365.1365.1365/0:0.0.0/DegreeOver";

// The factors of a product.
#[derive(Clone, Copy)]
enum Factors {
    Both,
    TermAndSecond,
    FirstAndX,
}

// The factors of a name.
fn named_factors(name: &str) -> Factors {
    match name {
        "both" => Factors::Both,
        "term" => Factors::TermAndSecond,
        _ => Factors::FirstAndX,
    }
}

// The product by a new table.
fn product<L: Ledger>(
    alloc: Global,
    algebra: &Algebra,
    factors: Factors,
    f: &GPoly,
    g: &GPoly,
    blank: Blank,
) -> Result<GPoly, ProductFault>
    requires vars { algebra.now.order.vars ≡ 3 }
    requires f_sorted { IsPolynomial algebra.now.p algebra.now.order f.now }
    requires g_sorted { IsPolynomial algebra.now.p algebra.now.order g.now }
    requires name { blank.name ≡ L.name }
    requires parts { blank.parts ≡ L.parts }
    requires some { 0 < blank.parts }
{
    let table = Table::new(alloc, algebra)?;
    let mut seat = table.seat(alloc)?;
    let mut steps = Steps::<L>::start(blank);
    match (factors, f.leading()) {
        (Factors::Both, _) => times(alloc, &mut seat, f, g, &mut steps),
        (Factors::FirstAndX, _) => right_times(alloc, &mut seat, f, 1, &mut steps),
        (_, Some(lead)) => term_times(alloc, &mut seat, lead.coef, &lead.mono, g, &mut steps),
        (_, None) => Err(ProductFault::Memory),
    }
}

// Whether a product is that of a text.
fn is_wanted(
    alloc: Global,
    algebra: &Algebra,
    product: Result<GPoly, ProductFault>,
    want: &str,
) -> Option<bool>
    requires { algebra.now.order.vars ≡ 3 }
{
    match product {
        Ok(product) => is_poly(alloc, algebra, &product, want),
        Err(ProductFault::DegreeOver) => Some(want == "DegreeOver"),
        Err(ProductFault::Memory) => None,
    }
}

// Whether a row holds.
fn holds(alloc: Global, row: &str) -> Option<bool> {
    let mut parts = row.split('/');
    let algebra = named(alloc, parts.next()?)?;
    let factors = named_factors(parts.next()?);
    let f = poly(alloc, algebra.field(), algebra.order(), parts.next()?)?;
    let g = poly(alloc, algebra.field(), algebra.order(), parts.next()?)?;
    let product = product::<Brand>(alloc, &algebra, factors, &f, &g, Blank::new(1));
    is_wanted(alloc, &algebra, product, parts.next()?)
}

#[test]
fn products_by_a_table(rt: HostRuntime) -> Result<(), Fail> {
    for row in PRODUCTS.lines() {
        assert_eq!(rt; holds(rt.alloc(), row), Some(true), "{row}");
    }
    Ok(())
}
