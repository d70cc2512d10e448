//! The machine that makes Gröbner bases: a run that goes on a step at a time, and an engine on one
//! thread.
#![tactic(auto)]

ghost use Rattle.std.specs.Prelude.{◌≡◌, ◌<◌, None, IfOk};
ghost use Rattle.word_model.specs.Machine.{machine};

pub use ahead::spec_over;
use algebra::Algebra;
use gpoly::GPoly;
use gproduct::{Steps, Table, TableSeat};
pub use lead::{Committed, Lead};
use run_records::{Engine, Journal, Mode, runs_have_laws};
use std::alloc::{AllocError, Global};
use std::marker::Brand;
use std::sync::ledger::{Blank, Ledger};

mod ahead;
mod lead;
mod progress;
#[cfg(test)]
mod tests;

/// An engine on one thread: a lead that it goes on with until the run is over, over a table of
/// products of its own.
#[derive(Debug, Drop)]
pub struct OneWorker {}

impl OneWorker {
    /// A worker. It keeps nothing between runs.
    pub fn new() -> OneWorker {
        OneWorker {}
    }
}

impl Engine for OneWorker {
    ghost can_run = { λ _. Unit {0} };

    fn basis(
        &mut self,
        alloc: Global,
        alg: &Algebra,
        gens: &[GPoly],
        mode: Mode,
        budget: u32,
    ) -> Result<Journal, AllocError> {
        runs_have_laws(alg, gens);
        let table = Table::new(alloc, alg)?;
        let mut seat = table.seat(alloc)?;
        let lead = Lead::new(alloc, alg, gens, mode, budget)?;
        led::<Brand>(alloc, &mut seat, lead, Blank::new(1))
    }
}

// The journal of a lead that is gone on with until it is over.
fn led<L: Ledger>(
    alloc: Global,
    seat: &mut TableSeat,
    lead: Lead,
    blank: Blank,
) -> Result<Journal, AllocError>
    requires algebra { seat.old.algebra ≡ lead.algebra }
    requires going { lead.outcome ≡ None }
    requires name { blank.name ≡ L.name }
    requires parts { blank.parts ≡ L.parts }
    requires some { 0 < blank.parts }
    ensures { IfOk result (λ journal. journal ≡ machine lead.algebra lead.generators lead.mode lead.budget) }
{
    let mut steps: Steps<L> = Steps::start(blank);
    let mut lead = lead;
    loop {
        match lead.commit(alloc, seat, None, &mut steps)? {
            Committed::Added => {}
            Committed::Over(_) => return Ok(lead.into_journal()),
        }
    }
}
