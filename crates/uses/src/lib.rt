//! What a user's own program may look like: left ideals of operators, over the public calls of the library and
//! proved by their clauses alone.
#![tactic(auto)]

ghost use Rattle.std.specs.Prelude.{◌≡◌, ◌≤◌, ◌↔◌, false, IsTrue, IfOk, OnOk, Some, length, map};
ghost use Rattle.monomials.specs.Polynomials.{Each, IsPolynomial};
ghost use Rattle.word_model.specs.Cofactors.{row_value};
ghost use Rattle.word_model.specs.Finished.{finished};
ghost use Rattle.word_model.specs.Ideals.{InLeftIdeal, IsReducedBasis};
ghost use Rattle.word_model.specs.Machine.{IsElement};
ghost use Rattle.word_model.specs.Reduction.{normal_form_by};
ghost use Rattle.word_model.specs.TwoVariables.{two_variables};
ghost use Rattle.word_model.specs.declared.records.Outcome.TheVariants.{Finished as Ended};

use algebra::{Algebra, AlgebraFault, ProductFault, Relations};
use commit_core::OneWorker;
use gpoly::GPoly;
use gproduct::{Steps, Table};
use monomials::{Block, Expo, Order};
use prime_field::Field;
use run_records::{Engine, Finished, Journal, Mode, Outcome, Row};
use std::alloc::{AllocError, Global};
use std::marker::Model;
use std::sync::ledger::Ledger;

#[cfg(test)]
mod tests;

/// The Weyl algebra of x and d over the field of 32003 elements, with d x = x d + 1.
pub fn weyl_algebra(alloc: Global) -> Result<Algebra, AlgebraFault>
    ensures { IfOk result (λ a. a ≡ two_variables 32003 1 1) }
{
    // The prime is in the table and the block covers both variables, so that nothing but memory can be wanting.
    let field = Field::of(32003).map_err(|_| AlgebraFault::Memory)?;
    let order = Order::new(alloc, &[Block::DegRev { len: 2 }], 2).map_err(
        |_| AlgebraFault::Memory,
    )?;
    let one = GPoly::of_term(alloc, 1, Expo::of(&[0, 0]))?;
    let c = Vec::from_array(alloc, [1]).map_err(AllocError::from)?;
    let d = Vec::from_array(alloc, [one]).map_err(AllocError::from)?;
    Algebra::new(alloc, field, order, 2, Relations { c, d })
}

/// Why there is no basis.
#[derive(Debug, Drop)]
pub enum NoBasis {
    /// The run ended before: its budget was spent, or it met a limit.
    Stopped(Outcome),
    /// A product was not computed.
    Product(ProductFault),
}

impl From<AllocError> for NoBasis {
    fn from(_error: AllocError) -> NoBasis {
        NoBasis::Product(ProductFault::Memory)
    }
}

impl From<ProductFault> for NoBasis {
    fn from(fault: ProductFault) -> NoBasis {
        NoBasis::Product(fault)
    }
}

/// The left ideal that some operators of an algebra generate, with its reduced Gröbner basis.
#[derive(Drop)]
pub struct LeftIdeal {
    algebra: Algebra,
    generators: Vec<GPoly>,
    run: Journal,
    finished: Finished,
}

impl Model for LeftIdeal {
    ghost use Rattle.uses.specs.Ideals.{Ideal};
    ghost use Rattle.uses.specs.Inside.Solved.{IsSolved};

    ghost Value = { Ideal };

    ghost view = { λ i. record { algebra = i.algebra; generators = i.generators.items; basis = i.finished.list } };

    ghost invariant = { λ i. IsSolved i.algebra i.generators.items i.run i.finished };
}

impl LeftIdeal {
    /// The left ideal of these operators. Its basis is computed at once, in a run of at most `budget` steps.
    pub fn new<L: Ledger>(
        alloc: Global,
        algebra: Algebra,
        generators: Vec<GPoly>,
        budget: u32,
        steps: &mut Steps<L>,
    ) -> Result<LeftIdeal, NoBasis>
        requires sorted { Each (IsPolynomial algebra.p algebra.order) generators.items }
        requires few { length generators.items ≤ 4096 }
        requires some { 1 ≤ budget }
        ensures algebra { IfOk result (λ i. i.algebra ≡ algebra) }
        ensures generators { IfOk result (λ i. i.generators ≡ generators.items) }
    {
        word_model::reducing::runs();
        let _n = algebra.n();
        let run = OneWorker::new().basis(alloc, &algebra, &generators, Mode::Left, budget)?;
        let Outcome::Finished = run.outcome else {
            return Err(NoBasis::Stopped(run.outcome));
        };
        let finished = finished_list(alloc, &algebra, &run, steps)?;
        Ok(LeftIdeal {
            algebra,
            generators,
            run,
            finished,
        })
    }

    /// The algebra.
    pub fn algebra(&self) -> &Algebra
        ensures { result.now ≡ self.now.algebra }
    {
        &self.algebra
    }

    /// The operators that generate the ideal.
    pub fn generators(&self) -> &[GPoly]
        ensures value { result.now ≡ self.now.generators }
        ensures sorted { Each (IsPolynomial self.now.algebra.p self.now.algebra.order) result.now }
    {
        &self.generators
    }

    /// The reduced Gröbner basis.
    pub fn basis(&self) -> &[GPoly]
        ensures value { result.now ≡ self.now.basis }
        ensures reduced { IsReducedBasis self.now.algebra (InLeftIdeal self.now.algebra self.now.generators) result.now }
    {
        word_model::groebner::finished_lists();
        let _n = self.algebra.n();
        monomials::laws::order_is_well_founded(self.algebra.order());
        &self.finished.list
    }

    /// Whether an operator is in the ideal.
    pub fn contains<L: Ledger>(
        &self,
        alloc: Global,
        operator: &GPoly,
        steps: &mut Steps<L>,
    ) -> Result<bool, ProductFault>
        requires sorted { IsPolynomial self.now.algebra.p self.now.algebra.order operator.now }
        ensures member { IfOk result (λ yes. IsTrue yes ↔ InLeftIdeal self.now.algebra self.now.generators operator.now) }
    {
        word_model::groebner::members_have_normal_form_zero();
        let _n = self.algebra.n();
        monomials::laws::order_is_well_founded(self.algebra.order());
        let rest = normal_form(alloc, &self.algebra, &self.finished.list, operator, steps)?;
        Ok(rest.is_zero())
    }

    /// How the elements of the basis are made from the generators: a row for each, with an entry for each generator.
    pub fn cofactors<L: Ledger>(
        &self,
        alloc: Global,
        steps: &mut Steps<L>,
    ) -> Result<Vec<Row>, ProductFault>
        ensures values { IfOk result (λ rows. map (λ row. row_value self.now.algebra row self.now.generators) rows.items ≡ self.now.basis) }
        ensures sorted { IfOk result (λ rows. Each (Each (IsPolynomial self.now.algebra.p self.now.algebra.order)) rows.items) }
        ensures one_entry_each { IfOk result (λ rows. Each (λ row. length row ≡ length self.now.generators) rows.items) }
    {
        let table = Table::new(alloc, &self.algebra)?;
        let mut seat = table.seat(alloc)?;
        cofactors::rows(
            alloc,
            &mut seat,
            &self.generators,
            &self.run,
            &self.finished,
            steps,
        )
    }
}

// The finished list of a finished run.
fn finished_list<L: Ledger>(
    alloc: Global,
    algebra: &Algebra,
    run: &Journal,
    steps: &mut Steps<L>,
) -> Result<Finished, ProductFault>
    requires finished { run.now.outcome ≡ Ended }
    requires elements { Each (IsElement algebra.now) run.now.basis }
    requires few { length run.now.basis ≤ 2048 }
    ensures list { IfOk result (λ f. finished algebra.now run.now.basis ≡ Some f) }
    ensures elements { IfOk result (λ f. Each (IsElement algebra.now) f.list) }
    ensures short { IfOk result (λ f. length f.list ≤ 2048) }
{
    let table = Table::new(alloc, algebra)?;
    let mut seat = table.seat(alloc)?;
    finish::reduced(alloc, &mut seat, run, steps)
}

// What is left of an operator by the elements of a list.
fn normal_form<L: Ledger>(
    alloc: Global,
    algebra: &Algebra,
    list: &Vec<GPoly>,
    operator: &GPoly,
    steps: &mut Steps<L>,
) -> Result<GPoly, ProductFault>
    requires list { Each (IsElement algebra.now) list.now.items }
    requires short { length list.now.items ≤ 2048 }
    requires operator { IsPolynomial algebra.now.p algebra.now.order operator.now }
    ensures defined { OnOk result ((normal_form_by algebra.now list.now.items operator.now).over ≡ false) }
    ensures rest { IfOk result (λ rest. (normal_form_by algebra.now list.now.items operator.now).rest ≡ rest) }
{
    let table = Table::new(alloc, algebra)?;
    let mut seat = table.seat(alloc)?;
    let (rest, _trace) = left_reduce::normal_form(alloc, &mut seat, list, operator, steps)?;
    Ok(rest)
}

/// Whether a row shows that an operator is in the left ideal of the generators. It does not matter where the row comes
/// from: what it adds up to is computed here.
pub fn shows_member<L: Ledger>(
    alloc: Global,
    algebra: &Algebra,
    generators: &[GPoly],
    row: &Row,
    operator: &GPoly,
    steps: &mut Steps<L>,
) -> Result<bool, ProductFault>
    requires generators { Each (IsPolynomial algebra.now.p algebra.now.order) generators.now }
    requires row { Each (IsPolynomial algebra.now.p algebra.now.order) row.now }
    requires one_each { length row.now ≡ length generators.now }
    requires operator { IsPolynomial algebra.now.p algebra.now.order operator.now }
    ensures member { IfOk result (λ shown. IsTrue shown → InLeftIdeal algebra.now generators.now operator.now) }
{
    let table = Table::new(alloc, algebra)?;
    let mut seat = table.seat(alloc)?;
    cofactors::check_row(alloc, &mut seat, generators, row, operator, steps)
}
