//! A board of jobs: what leader and workers share.
#![tactic(auto)]

ghost use Rattle.std.specs.Prelude.{true, ℕ, ◌≡◌, ◌≢◌, ◌≤◌, ◌+◌, ◌++◌, [], ◌∷◌, Some, None, IsSome, IfSome, IfOk, OnOk, OnErr, MatchOption, false, length, map, replicate, slice_set, slice_index_or};
ghost use Rattle.monomials.specs.Polynomials.{Each};
ghost use Rattle.word_model.specs.declared.records.Job.{Job};
ghost use Rattle.pair_strategy.specs.Queues.{IsSet};
ghost use Rattle.board.specs.Boards.{standing, hand, closed, offered, claimed, claim_events, leave_events, take_events, close_events, place_of};
ghost use Rattle.word_model.specs.declared.events.BoardEvent.TheVariants.{Claim, Offer};
ghost use Rattle.word_model.specs.declared.events.Standing.TheVariants.{Taken, Published};

use logged::Logged;
use run_records::Job;
use std::alloc::{AllocError, Global};
use std::marker::Model;
pub use word_model::events::{BoardEvent, Claimed, Standing};

mod logged;
mod slots;
#[cfg(test)]
mod tests;

/// A board: jobs that are offered, and then claimed by a seat, published with a payload or released,
/// and taken. It is known by the log of its events. Only `new` and `offer` take memory.
#[derive(Drop)]
pub struct Board<P> {
    core: Logged,
    kept: Vec<Option<P>>,
}

impl<P> Model for Board<P> {
    ghost use Rattle.board.specs.Boards.{BoardValue};
    ghost use Rattle.board.specs.Logs.{Keeps};

    ghost Value = { BoardValue P };

    ghost view = { λ b. record { log = b.core.log; seats = b.core.seats; kept = b.kept.items } };

    ghost invariant = { λ b. Keeps P b.core.log b.kept.items };
}

impl<P: Drop> Board<P> {
    /// A board with the seats 0 to `seats`, whose hands are empty, and with no job on it.
    pub fn new(alloc: Global, seats: u8) -> Result<Board<P>, AllocError>
        ensures log { IfOk result (λ b. b.log ≡ []) }
        ensures seats { IfOk result (λ b. b.seats ≡ seats) }
        ensures kept { IfOk result (λ b. b.kept ≡ []) }
    {
        Ok(Board {
            core: Logged::new(alloc, seats)?,
            kept: Vec::new(alloc),
        })
    }

    /// Offers jobs that differ, and of which none is on the board, in this order. All room for what
    /// may happen to them is made first; where memory is wanting, nothing changes.
    pub fn offer(&mut self, alloc: Global, jobs: &[Job]) -> Result<(), AllocError>
        requires open { closed self.old.log ≡ false }
        requires new { Each (λ j. standing self.old.log j ≡ None) jobs.now }
        requires differ { IsSet jobs.now }
        ensures log { OnOk result (self.new.log ≡ self.old.log ++ map Offer jobs.now) }
        ensures kept { OnOk result (self.new.kept ≡ self.old.kept ++ replicate (length jobs.now) None) }
        ensures seats { self.new.seats ≡ self.old.seats }
        ensures refused { OnErr result (self.new ≡ self.old) }
    {
        let _alloc = alloc;
        self.kept.reserve(jobs.len())?;
        self.core.offer(jobs)?;
        for _job in jobs {
            self.kept.push(None).unwrap();
        }
        Ok(())
    }

    /// How a job stands, and `None` where it is not on the board. Takes no memory.
    pub fn standing(&self, job: &Job) -> Option<Standing>
        ensures { result ≡ standing self.now.log job.now }
    {
        self.core.standing(job)
    }

    /// The job that a seat has in hand. Takes no memory.
    pub fn hand(&self, seat: u8) -> Option<&Job>
        ensures { MatchOption result (hand self.now.log seat ≡ None) (λ job. hand self.now.log seat ≡ Some job.now) }
    {
        self.core.hand(seat)
    }

    /// Whether the board is closed. Takes no memory.
    pub fn closed(&self) -> bool
        ensures { result ≡ closed self.now.log }
    {
        self.core.closed()
    }

    /// The greatest seat. Takes no memory.
    pub fn seats(&self) -> u8
        ensures { result ≡ self.now.seats }
    {
        self.core.seats()
    }

    /// The events so far. Takes no memory.
    pub fn log(&self) -> &[BoardEvent]
        ensures { result.now ≡ self.now.log }
    {
        self.core.log()
    }

    /// Closes the board. A second close changes nothing. Takes no memory.
    pub fn close(&mut self)
        ensures log { self.new.log ≡ self.old.log ++ close_events (closed self.old.log) }
        ensures kept { self.new.kept ≡ self.old.kept }
        ensures seats { self.new.seats ≡ self.old.seats }
    {
        self.core.close();
    }

    /// Gives the seat, whose hand is empty, the earliest offered job that stands offered. `Closed`
    /// comes exactly where the board is closed, and `NoneNow` where it isn't and no job stands
    /// offered. Takes no memory.
    pub fn claim(&mut self, seat: u8) -> Claimed
        requires exists { seat ≤ self.old.seats }
        requires empty { hand self.old.log seat ≡ None }
        ensures answer { result ≡ claimed self.old.log }
        ensures log { self.new.log ≡ self.old.log ++ claim_events seat (claimed self.old.log) }
        ensures kept { self.new.kept ≡ self.old.kept }
        ensures seats { self.new.seats ≡ self.old.seats }
    {
        self.core.claim(seat)
    }

    /// Empties the seat's hand and keeps the payload for the job in it. The payload comes back exactly
    /// where the job was taken meanwhile. Takes no memory.
    pub fn publish(&mut self, seat: u8, payload: P) -> Option<P>
        requires { IsSome (hand self.old.log seat) }
        ensures log { self.new.log ≡ self.old.log ++ leave_events true seat (hand self.old.log seat) }
        ensures kept { IfSome (hand self.old.log seat) (λ j. MatchOption result
            ((standing self.old.log j ≢ Some Taken)
            × (self.new.kept ≡ slice_set self.old.kept (place_of (offered self.old.log) j) (Some payload)))
            (λ p. (standing self.old.log j ≡ Some Taken) × (p ≡ payload) × (self.new.kept ≡ self.old.kept))) }
        ensures seats { self.new.seats ≡ self.old.seats }
    {
        match self.core.leave(seat, true) {
            Some(k) => {
                self.kept[k] = Some(payload);
                None
            }
            None => Some(payload),
        }
    }

    /// Empties the seat's hand. Takes no memory.
    pub fn release(&mut self, seat: u8)
        requires { IsSome (hand self.old.log seat) }
        ensures log { self.new.log ≡ self.old.log ++ leave_events false seat (hand self.old.log seat) }
        ensures kept { self.new.kept ≡ self.old.kept }
        ensures seats { self.new.seats ≡ self.old.seats }
    {
        let _place = self.core.leave(seat, false);
    }

    /// Takes a job, and answers the payload with which it was published. `None` comes exactly where it
    /// does not stand published. Takes no memory.
    pub fn take(&mut self, job: &Job) -> Option<P>
        ensures log { self.new.log ≡ self.old.log ++ take_events job.now (standing self.old.log job.now) }
        ensures none { standing self.old.log job.now ≢ Some Published → (result ≡ None) × (self.new.kept ≡ self.old.kept) }
        ensures some { standing self.old.log job.now ≡ Some Published → IsSome result
            × (result ≡ slice_index_or self.old.kept (place_of (offered self.old.log) job.now) None)
            × (self.new.kept ≡ slice_set self.old.kept (place_of (offered self.old.log) job.now) None) }
        ensures seats { self.new.seats ≡ self.old.seats }
    {
        let k = self.core.take(job)?;
        self.kept[k].take()
    }
}
