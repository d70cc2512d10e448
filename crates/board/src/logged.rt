//! A board without payloads: the log of its events, and what the log says.

ghost use Rattle.std.specs.Prelude.{ℕ, ◌≡◌, ◌≢◌, ◌<◌, ◌≤◌, ◌+◌, ◌*◌, ◌++◌, [], ◌∷◌, Some, None, IsSome, IfSome, IfOk, OnOk, OnErr, MatchBool, true, false, MatchOption, length, slice_index_or, map};
ghost use Rattle.monomials.specs.Polynomials.{Each};
ghost use Rattle.word_model.specs.Jobs.{same_job};
ghost use Rattle.pair_strategy.specs.Queues.{IsSet};
ghost use Rattle.board.specs.Boards.{standing, hand, closed, offered, claimed, claim_events, leave_events, take_events, close_events, left_standing, leaving, place_of, unless_taken as left_at};
ghost use Rattle.board.specs.Logs.{Distinct, IsAtPlace};
ghost use Rattle.word_model.specs.declared.events.BoardEvent.TheVariants.{Claim, Offer};
ghost use Rattle.word_model.specs.declared.events.Standing.TheVariants.{Offered, Taken, Published};
ghost use Rattle.board.specs.declared.slots.Slot.{Slot};
ghost use Rattle.word_model.specs.declared.records.Job.{Job};

use crate::slots::{Slot, Slots};
use run_records::Job;
use std::alloc::{AllocError, Global};
use std::marker::Model;
use word_model::events::{BoardEvent, Claimed, Standing};

// A board without payloads. Only `new` and `offer` take memory.
#[derive(Drop)]
pub(crate) struct Logged {
    log: Vec<BoardEvent>,
    slots: Slots,
    hands: Vec<Option<Job>>,
    seats: u8,
    shut: bool,
}

impl Model for Logged {
    ghost use Rattle.std.specs.Prelude.{ℕ, ◌≡◌, suc, length, vec_len, vec_capacity};
    ghost use Rattle.board.specs.Logs.{LogValue, Fits};

    ghost Value = { LogValue };

    ghost view = { λ b. record { log = b.log.items; seats = b.seats } };

    ghost invariant = { λ b. Fits b.log.items (vec_len b.log) (vec_capacity b.log) b.slots b.hands.items b.shut
        × (length b.hands.items ≡ suc b.seats) };
}

impl Logged {
    // A board with seats 0 to `seats`, and nothing on it.
    pub(crate) fn new(alloc: Global, seats: u8) -> Result<Logged, AllocError>
        ensures log { IfOk result (λ b. b.log ≡ []) }
        ensures seats { IfOk result (λ b. b.seats ≡ seats) }
    {
        let log = Vec::with_capacity(alloc, 1)?;
        let mut hands = Vec::new(alloc);
        for _ in 0..usize::from(seats) + 1 {
            hands.push(None)?;
        }
        Ok(Logged {
            log,
            slots: Slots::new(alloc),
            hands,
            seats,
            shut: false,
        })
    }

    // Offers jobs, in this order. The room for all that may happen to them is made first.
    pub(crate) fn offer(&mut self, jobs: &[Job]) -> Result<(), AllocError>
        requires open { closed self.old.log ≡ false }
        requires new { Each (λ j. standing self.old.log j ≡ None) jobs.now }
        requires differ { IsSet jobs.now }
        ensures log { OnOk result (self.new.log ≡ self.old.log ++ map Offer jobs.now) }
        ensures refused { OnErr result (self.new ≡ self.old) }
        ensures seats { self.new.seats ≡ self.old.seats }
    {
        let Some(events) = events_of(self.slots.len(), self.hands.len(), jobs.len()) else {
            return Err(AllocError);
        };
        self.log.reserve(events)?;
        self.slots.offer(jobs)?;
        for job in jobs {
            self.log.push(BoardEvent::Offer { job: *job }).unwrap();
        }
        Ok(())
    }

    pub(crate) fn standing(&self, job: &Job) -> Option<Standing>
        ensures { result ≡ standing self.now.log job.now }
    {
        match self.slots.place(job) {
            Some(k) => Some(self.slots.at(k).standing),
            None => None,
        }
    }

    pub(crate) fn hand(&self, seat: u8) -> Option<&Job>
        ensures value { MatchOption result (hand self.now.log seat ≡ None) (λ job. hand self.now.log seat ≡ Some job.now) }
    {
        hand_at(&self.hands, seat)
    }

    pub(crate) fn closed(&self) -> bool
        ensures { result ≡ closed self.now.log }
    {
        self.shut
    }

    pub(crate) fn seats(&self) -> u8
        ensures { result ≡ self.now.seats }
    {
        self.seats
    }

    pub(crate) fn log(&self) -> &[BoardEvent]
        ensures { result.now ≡ self.now.log }
    {
        &self.log
    }

    // Closes the board. A second close changes nothing.
    pub(crate) fn close(&mut self)
        ensures log { self.new.log ≡ self.old.log ++ close_events (closed self.old.log) }
        ensures seats { self.new.seats ≡ self.old.seats }
    {
        if self.shut {
            return;
        }
        self.shut = true;
        match self.log.push(BoardEvent::Close) {
            Ok(()) => (),
            Err(_) => unreachable!(),
        }
    }

    // The earliest offered job that stands offered.
    pub(crate) fn claim(&mut self, seat: u8) -> Claimed
        requires exists { seat ≤ self.old.seats }
        requires empty { hand self.old.log seat ≡ None }
        ensures answer { result ≡ claimed self.old.log }
        ensures log { self.new.log ≡ self.old.log ++ claim_events seat (claimed self.old.log) }
        ensures seats { self.new.seats ≡ self.old.seats }
    {
        if self.shut {
            return Claimed::Closed;
        }
        let Some(k) = self.slots.first_offered() else {
            return Claimed::NoneNow;
        };
        let job = self.slots.at(k).job;
        self.slots.stand(k, Standing::Held { seat });
        self.hands[seat as usize] = Some(job);
        match self.log.push(BoardEvent::Claim { seat, job }) {
            Ok(()) => Claimed::Job(job),
            Err(_) => unreachable!(),
        }
    }

    // Empties a hand, by a publication or by a release. Answers the place of its job, and `None` where
    // that was taken meanwhile.
    pub(crate) fn leave(&mut self, seat: u8, published: bool) -> Option<usize>
        requires { IsSome (hand self.old.log seat) }
        ensures distinct { Distinct (offered self.old.log) }
        ensures log { self.new.log ≡ self.old.log ++ leave_events published seat (hand self.old.log seat) }
        ensures seats { self.new.seats ≡ self.old.seats }
        ensures place { IfSome (hand self.old.log seat) (λ j. MatchOption result (standing self.old.log j ≡ Some Taken)
            (λ k. (standing self.old.log j ≢ Some Taken) × (k ≡ place_of (offered self.old.log) j) × IsAtPlace (offered self.old.log) k j)) }
    {
        let Some(job) = hand_of(&self.hands, seat) else {
            unreachable!()
        };
        let Some(k) = self.slots.place(&job) else {
            unreachable!()
        };
        let was = self.slots.at(k).standing;
        self.slots
            .stand(k, unless_taken(was, left_standing(published)));
        self.hands[seat as usize] = None;
        match self.log.push(leaving(published, seat, job)) {
            Ok(()) => unless_gone(was, k),
            Err(_) => unreachable!(),
        }
    }

    // Takes a job. Answers its place where it was published.
    pub(crate) fn take(&mut self, job: &Job) -> Option<usize>
        ensures log { self.new.log ≡ self.old.log ++ take_events job.now (standing self.old.log job.now) }
        ensures seats { self.new.seats ≡ self.old.seats }
        ensures place { MatchOption result (standing self.old.log job.now ≢ Some Published)
            (λ k. (standing self.old.log job.now ≡ Some Published) × (k ≡ place_of (offered self.old.log) job.now) × IsAtPlace (offered self.old.log) k job.now) }
    {
        let Some(k) = self.slots.place(job) else {
            return None;
        };
        let Slot { job, standing: was } = self.slots.at(k);
        if is_taken(was) {
            return None;
        }
        self.slots.stand(k, Standing::Taken);
        match self.log.push(BoardEvent::Take { job }) {
            Ok(()) => if_published(was, k),
            Err(_) => unreachable!(),
        }
    }
}

// How many events may come, for so many jobs, hands and jobs more.
fn events_of(jobs: usize, hands: usize, count: usize) -> Option<usize>
    ensures { IfSome result (λ n. 3 * jobs + hands + 4 * count + 1 ≤ n) }
{
    let jobs = jobs.checked_mul(3)?;
    let count = count.checked_mul(4)?;
    jobs.checked_add(hands)?.checked_add(count)?.checked_add(1)
}

// What a seat has in hand.
fn hand_of(hands: &Vec<Option<Job>>, seat: u8) -> Option<Job>
    ensures value { result ≡ slice_index_or hands.now.items seat None }
    ensures inside { IsSome result → seat < length hands.now.items }
{
    let seat = seat as usize;
    if seat < hands.len() {
        hands[seat]
    } else {
        None
    }
}

// The same, lent.
fn hand_at(hands: &Vec<Option<Job>>, seat: u8) -> Option<&Job>
    ensures { MatchOption result (slice_index_or hands.now.items seat None ≡ None)
        (λ job. slice_index_or hands.now.items seat None ≡ Some job.now) }
{
    let seat = seat as usize;
    if seat < hands.len() {
        hands[seat].as_ref()
    } else {
        None
    }
}

fn left_standing(published: bool) -> Standing
    ensures { result ≡ left_standing published }
{
    if published {
        Standing::Published
    } else {
        Standing::Released
    }
}

fn leaving(published: bool, seat: u8, job: Job) -> BoardEvent
    ensures { result ≡ leaving published seat job }
{
    if published {
        BoardEvent::Publish { seat, job }
    } else {
        BoardEvent::Release { seat, job }
    }
}

fn unless_taken(was: Standing, then: Standing) -> Standing
    ensures { Some result ≡ left_at (Some was) then }
{
    match was {
        Standing::Taken => Standing::Taken,
        _ => then,
    }
}

fn is_taken(was: Standing) -> bool
    ensures { MatchBool result (was ≡ Taken) (was ≢ Taken) }
{
    match was {
        Standing::Taken => true,
        _ => false,
    }
}

fn unless_gone(was: Standing, k: usize) -> Option<usize>
    ensures { MatchOption result (was ≡ Taken) (λ m. (was ≢ Taken) × (m ≡ k)) }
{
    match was {
        Standing::Taken => None,
        _ => Some(k),
    }
}

fn if_published(was: Standing, k: usize) -> Option<usize>
    ensures { MatchOption result (was ≢ Published) (λ m. (was ≡ Published) × (m ≡ k)) }
{
    match was {
        Standing::Published => Some(k),
        _ => None,
    }
}
