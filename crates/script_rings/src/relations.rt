//! Rings with relations.

ghost use Rattle.std.specs.Prelude.{◌≡◌, ◌<◌, ◌-◌, ◌*◌, [], true, Option, IfOk, length};
ghost use Rattle.monomials.specs.Polynomials.{Each, IsPolynomial};
ghost use Rattle.word_model.specs.Words.{Algebra as AlgebraData};
ghost use Rattle.word_model.specs.Conditions.{Fault};
ghost use Rattle.word_model.specs.Texts.{polynomial_text};
ghost use Rattle.script_model.specs.Statements as spec;
ghost use Rattle.script_rings.specs.Entries.{IsFirst, RestIs};
ghost use Rattle.script_values.specs.Gives.{Gives, Stops};
ghost use Rattle.script_values.specs.Values.{IsValueOf};

use crate::blocks::copy_blocks;
use crate::entries::{constants_for, entries_for};
use crate::names::copy_names;
use algebra::{Algebra, AlgebraFault, Relations};
use gpoly::GPoly;
use plural_text::poly_text;
use script_model::values::{Refusal, Value};
use script_values::{Ring, Stop};
use sqlite_items::Items;
use std::alloc::{AllocError, Global};

/// The ring that `nc_algebra` makes of a ring by the numbers c_ij and the polynomials d_ij of its relations: each
/// one value for all pairs, or a matrix whose entries (i, j) with i < j are taken. It is refused by `Kind`, and by
/// the first condition on relations that fails.
pub fn nc_ring(alloc: Global, ring: &Ring, c: &Value, d: &Value) -> Result<Ring, Stop>
    requires c { IsValueOf ring.now.algebra c.now }
    requires d { IsValueOf ring.now.algebra d.now }
    ensures { Gives result (spec.nc_ring ring.now c.now d.now) }
{
    if ring.is_made() {
        return Err(Stop::Refused(Refusal::Kind));
    }
    has_names(ring);
    let c = constants_for(alloc, ring.algebra(), c)?;
    let d = entries_for(alloc, ring.algebra(), d)?;
    related(alloc, ring, Relations { c, d })
}

// The ring has a name for each variable.
fn has_names(ring: &Ring)
    ensures { ring.now.algebra.order.vars ≡ length ring.now.names }
{
    let _names = ring.names();
}

// The ring with these relations.
fn related(alloc: Global, ring: &Ring, relations: Relations) -> Result<Ring, Stop>
    requires numbers { Each (λ k. k < ring.now.algebra.p) relations.c.items }
    requires polynomials { Each (IsPolynomial ring.now.algebra.p ring.now.algebra.order) relations.d.items }
    requires one_number_each { 2 * length relations.c.items ≡ ring.now.algebra.order.vars * (ring.now.algebra.order.vars - 1) }
    requires one_polynomial_each { length relations.d.items ≡ length relations.c.items }
    ensures { Gives result (spec.related ring.now relations.c.items relations.d.items) }
{
    let base = ring.algebra();
    let order = base.order().copy(alloc)?;
    match Algebra::new(alloc, base.field(), order, base.n(), relations) {
        Ok(algebra) => Ok(made(alloc, ring, algebra)?),
        Err(fault) => Err(refusal_of(alloc, ring, fault)),
    }
}

// The ring with this algebra.
fn made(alloc: Global, ring: &Ring, algebra: Algebra) -> Result<Ring, AllocError>
    requires { algebra.order.vars ≡ ring.now.algebra.order.vars }
    ensures { IfOk result (λ r. r ≡ record { names = ring.now.names; blocks = ring.now.blocks; algebra = algebra; made = true; values = [] }) }
{
    let names = copy_names(alloc, ring.names())?;
    let blocks = copy_blocks(alloc, ring.blocks())?;
    Ring::new(alloc, names, blocks, algebra, true)
}

// What relations with this fault are refused by.
fn refusal_of(alloc: Global, ring: &Ring, fault: AlgebraFault) -> Stop
    requires { RestIs (IsPolynomial ring.now.algebra.p ring.now.algebra.order) fault }
    ensures { (A : AlgebraData) (first : Option Fault) → IsFirst first fault →
        Stops result (spec.accepted ring.now A first) }
{
    match fault {
        AlgebraFault::Coefficient { i, j } => Stop::Refused(Refusal::Coefficient(i, j)),
        AlgebraFault::Profile { i, j } => Stop::Refused(Refusal::Profile(i, j)),
        AlgebraFault::Ordering { i, j } => Stop::Refused(Refusal::Ordering(i, j)),
        AlgebraFault::NonDegeneracy { i, j, k, rest } => match rest_text(alloc, ring, &rest) {
            Ok(text) => Stop::Refused(Refusal::NonDegeneracy(i, j, k, text)),
            Err(_) => Stop::Memory,
        },
        AlgebraFault::Memory => Stop::Memory,
    }
}

// The text of a polynomial of the ring.
fn rest_text(alloc: Global, ring: &Ring, rest: &GPoly) -> Result<Items<u8>, AllocError>
    requires { IsPolynomial ring.now.algebra.p ring.now.algebra.order rest.now }
    ensures { IfOk result (λ text. text ≡ polynomial_text ring.now.algebra.p ring.now.names rest.now) }
{
    let text = poly_text(alloc, ring.algebra(), ring.names(), rest)?;
    Ok(Items::from_vec(text))
}
