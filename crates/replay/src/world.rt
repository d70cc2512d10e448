//! The program's world, and what each event does to it.

ghost use Rattle.std.specs.Prelude.{◌≡◌, ◌≢◌, true, slice_set, slice_index_or, ℕ, ◌≤◌, ◌<◌, ◌++◌, ◌∷◌, [], List, IfOk, OnOk, IfSome, IsSome, Some, None, Option, MatchOption, insert, take, length};
ghost use Rattle.std.specs.List.{find, list_any};
ghost use Rattle.monomials.specs.Polynomials.{Each, IsPolynomial};
ghost use Rattle.word_model.specs.Machine.{step};
ghost use Rattle.word_model.specs.Jobs.{same_job};
ghost use Rattle.gproduct.specs.Seats.{Keeps};
ghost use Rattle.run_records.specs.Ahead.{ReducedStart};
ghost use Rattle.board.specs.Boards.{standing, hand, offered, place_of, leave_events};
ghost use Rattle.word_model.specs.declared.events.Standing.TheVariants.{Taken};
ghost use Rattle.word_model.specs.declared.events.Event.{Event};
ghost use Rattle.word_model.specs.declared.events.Hand.{Hand};
ghost use Rattle.commit_core.specs.Named.{IsNamed};
ghost use Rattle.commit_core.specs.Leads.{IsSameRun, IsLead};
ghost use Rattle.replay.specs.Worlds.{CoreWorld, first_world, after_events, after_event, IsSound, offers, claims, fills, publish_hand, release_hand, take_first, commits, hand_at, with_hand, without_hand, is_off, is_place, same_place, spec_of};
ghost use Rattle.replay.specs.Shown.{Shows, Fits};

use crate::laws::every_interleaving;
use algebra::Algebra;
use board::{Board, Claimed};
use commit_core::{Lead, spec_over};
use gpoly::GPoly;
use gproduct::{Place, Steps, Table, TableSeat};
use pair_strategy;
use run_records::{Elements, Job, Mode, Spec};
use std::alloc::{AllocError, Global};
use std::marker::{Brand, Model};
use std::sync::ledger::{Blank, Ledger};
use word_model::events::{Event, Hand};

/// The greatest seat of a world.
const LAST_SEAT: u8 = 64;

/// What a list of events comes to: the lead, the board with what is published, the hands that have a
/// job, by rising seat, the filled places, and what was taken.
#[derive(Drop)]
pub struct World {
    pub lead: Lead,
    pub board: Board<Spec>,
    pub hands: Vec<Hand>,
    pub filled: Vec<Place>,
    pub taken: Option<Spec>,
}

impl Model for World {
    ghost use Rattle.replay.specs.Shown.{WorldValue};

    ghost Value = { WorldValue };

    ghost view = { λ w. record { lead = w.lead; board = w.board; hands = w.hands.items; filled = w.filled.items; taken = w.taken } };
}

/// The world after these events, from a new lead over these generators and an empty board. An event
/// that does not apply changes nothing. The world is sound whatever the events: its commits are a part
/// of the machine's run from the beginning, and all its Specs are good.
pub fn replay(
    alloc: Global,
    alg: &Algebra,
    gens: &[GPoly],
    mode: Mode,
    budget: u32,
    events: &[Event],
) -> Result<World, AllocError>
    requires sorted { Each (IsPolynomial alg.now.p alg.now.order) gens.now }
    requires few { length gens.now ≤ 4096 }
    requires some { 1 ≤ budget }
    ensures value { IfOk result (λ w. Shows w (after_events alg.now gens.now mode budget (first_world gens.now) events.now)) }
    ensures sound { IsSound alg.now gens.now mode budget (after_events alg.now gens.now mode budget (first_world gens.now) events.now) }
{
    let _n = alg.n();
    every_interleaving(alg, gens);
    let table = Table::new(alloc, alg)?;
    let mut seat = table.seat(alloc)?;
    let world = World::first(alloc, alg, gens, mode, budget)?;
    replayed::<Brand>(alloc, &mut seat, world, events, Blank::new(1))
}

// The world after these events.
fn replayed<L: Ledger>(
    alloc: Global,
    seat: &mut TableSeat,
    world: World,
    events: &[Event],
    blank: Blank,
) -> Result<World, AllocError>
    requires algebra { seat.old.algebra ≡ world.lead.algebra }
    requires fit { (w : CoreWorld) × Shows world w × Fits world w }
    requires name { blank.name ≡ L.name }
    requires parts { blank.parts ≡ L.parts }
    requires some { 0 < blank.parts }
    ensures { IfOk result (λ after. (w : CoreWorld) → Shows world w → Fits world w →
        Shows after (after_events world.lead.algebra world.lead.generators world.lead.mode world.lead.budget w events.now)) }
{
    let _n = seat.algebra().n();
    let _gens = world.lead.generators();
    let mut steps: Steps<L> = Steps::start(blank);
    let mut world = world;
    for k in 0..events.len() {
        let event = event_at(events, k);
        world.act(alloc, seat, event, &mut steps)?;
    }
    Ok(world)
}

// The event at a place.
fn event_at(events: &[Event], k: usize) -> Event
    requires { k < length events.now }
    ensures { (d : Event) → result ≡ slice_index_or events.now k d }
{
    events[k]
}

impl World {
    // A new lead, and nothing else.
    fn first(
        alloc: Global,
        alg: &Algebra,
        gens: &[GPoly],
        mode: Mode,
        budget: u32,
    ) -> Result<World, AllocError>
        requires sorted { Each (IsPolynomial alg.now.p alg.now.order) gens.now }
        requires few { length gens.now ≤ 4096 }
        requires some { 1 ≤ budget }
        ensures shows { IfOk result (λ w. Shows w (first_world gens.now)) }
        ensures algebra { IfOk result (λ w. w.lead.algebra ≡ alg.now) }
        ensures generators { IfOk result (λ w. w.lead.generators ≡ gens.now) }
        ensures mode { IfOk result (λ w. w.lead.mode ≡ mode) }
        ensures budget { IfOk result (λ w. w.lead.budget ≡ budget) }
    {
        Ok(World {
            lead: Lead::new(alloc, alg, gens, mode, budget)?,
            board: Board::new(alloc, LAST_SEAT)?,
            hands: Vec::new(alloc),
            filled: Vec::new(alloc),
            taken: None,
        })
    }

    // An event.
    fn act<L: Ledger>(
        &mut self,
        alloc: Global,
        seat: &mut TableSeat,
        event: Event,
        steps: &mut Steps<L>,
    ) -> Result<(), AllocError>
        requires algebra { seat.old.algebra ≡ self.old.lead.algebra }
        requires fit { (w : CoreWorld) × Shows self.old w × Fits self.old w }
        ensures on { OnOk result ((w : CoreWorld) → Shows self.old w → Fits self.old w →
            Shows self.new (after_event self.old.lead.algebra self.old.lead.generators self.old.lead.mode self.old.lead.budget w event)) }
        ensures same { OnOk result (IsSameRun self.old.lead self.new.lead) }
        ensures seat { seat.new.algebra ≡ seat.old.algebra }
    {
        match event {
            Event::Offer => self.offer(alloc),
            Event::Claim { seat, prefix } => self.claim(seat, prefix),
            Event::Fill { place } => self.fill(seat.algebra().n(), place),
            Event::Publish { seat: hand } => self.publish(alloc, seat, hand, steps),
            Event::Release { seat } => self.release(alloc, seat),
            Event::Take => {
                self.take();
                Ok(())
            }
            Event::Commit => self.commit(alloc, seat, steps),
            Event::Close => {
                self.board.close();
                Ok(())
            }
        }
    }

    // The least queued job that is not on the board comes there.
    fn offer(&mut self, alloc: Global) -> Result<(), AllocError>
        ensures on { OnOk result ((w : CoreWorld) → Shows self.old w →
            Shows self.new (offers self.old.lead.algebra self.old.lead.generators w)) }
        ensures lead { self.new.lead ≡ self.old.lead }
    {
        pair_strategy::laws::first_is_least();
        if self.board.closed() {
            return Ok(());
        }
        let waiting = first_waiting(alloc, &self.lead, &self.board)?;
        match waiting {
            Some(job) => {
                self.board.offer(alloc, &[job])?;
                Ok(())
            }
            None => Ok(()),
        }
    }

    // A seat claims.
    fn claim(&mut self, seat: u8, prefix: u32) -> Result<(), AllocError>
        requires fit { (w : CoreWorld) × Shows self.old w × Fits self.old w }
        ensures on { OnOk result ((w : CoreWorld) → Shows self.old w → Fits self.old w → Shows self.new (claims w seat prefix)) }
        ensures lead { self.new.lead ≡ self.old.lead }
    {
        if seat > LAST_SEAT || self.board.hand(seat).is_some() {
            return Ok(());
        }
        match self.board.claim(seat) {
            Claimed::Job(job) => {
                let prefix = (prefix as usize).min(self.lead.basis().len()) as u32;
                put_hand(&mut self.hands, Hand { seat, job, prefix })
            }
            Claimed::Closed | Claimed::NoneNow => Ok(()),
        }
    }

    // A place is filled.
    fn fill(&mut self, n: usize, place: Place) -> Result<(), AllocError>
        requires { n ≡ self.old.lead.algebra.order.vars }
        ensures on { OnOk result ((w : CoreWorld) → Shows self.old w → Fits self.old w → Shows self.new (fills self.old.lead.algebra w place)) }
        ensures lead { self.new.lead ≡ self.old.lead }
    {
        if is_place(n, &place) && !is_filled(&self.filled, &place) {
            push_place(&mut self.filled, place)?;
        }
        Ok(())
    }

    // A seat publishes what it has in hand, or gives it back.
    fn publish<L: Ledger>(
        &mut self,
        alloc: Global,
        seat: &mut TableSeat,
        hand: u8,
        steps: &mut Steps<L>,
    ) -> Result<(), AllocError>
        requires algebra { seat.old.algebra ≡ self.old.lead.algebra }
        requires fit { (w : CoreWorld) × Shows self.old w × Fits self.old w }
        ensures on { OnOk result ((w : CoreWorld) → Shows self.old w → Fits self.old w →
            Shows self.new (publish_hand self.old.lead.algebra self.old.lead.generators w (hand_at w.hands hand))) }
        ensures lead { self.new.lead ≡ self.old.lead }
        ensures seat { seat.new.algebra ≡ seat.old.algebra }
    {
        let Some(held) = hand_at(&self.hands, hand) else {
            return Ok(());
        };
        let spec = made(alloc, seat, &self.lead, &held, steps)?;
        self.hands = others(alloc, &self.hands, hand)?;
        match spec {
            Some(spec) => publish_spec(&mut self.board, hand, spec),
            None => self.board.release(hand),
        }
        Ok(())
    }

    // A seat gives back what it has in hand.
    fn release(&mut self, alloc: Global, hand: u8) -> Result<(), AllocError>
        requires fit { (w : CoreWorld) × Shows self.old w × Fits self.old w }
        ensures on { OnOk result ((w : CoreWorld) → Shows self.old w → Fits self.old w →
            Shows self.new (release_hand w (hand_at w.hands hand))) }
        ensures lead { self.new.lead ≡ self.old.lead }
    {
        let Some(_held) = hand_at(&self.hands, hand) else {
            return Ok(());
        };
        self.hands = others(alloc, &self.hands, hand)?;
        self.board.release(hand);
        Ok(())
    }

    // The lead's first job is taken.
    fn take(&mut self)
        ensures on { (w : CoreWorld) → Shows self.old w →
            Shows self.new (take_first self.old.lead.algebra self.old.lead.generators w w.state.queue) }
        ensures lead { self.new.lead ≡ self.old.lead }
    {
        let Some(first) = self.lead.first() else {
            return;
        };
        let taken = self.board.take(first);
        self.taken = either(taken, self.taken.take());
    }

    // A commit, with what was taken where that is of the first job.
    fn commit<L: Ledger>(
        &mut self,
        alloc: Global,
        seat: &mut TableSeat,
        steps: &mut Steps<L>,
    ) -> Result<(), AllocError>
        requires algebra { seat.old.algebra ≡ self.old.lead.algebra }
        requires fit { (w : CoreWorld) × Shows self.old w × Fits self.old w }
        ensures on { OnOk result ((w : CoreWorld) → Shows self.old w → Fits self.old w →
            Shows self.new (commits w
            (step self.old.lead.algebra self.old.lead.generators self.old.lead.mode self.old.lead.budget w.state) w.outcome)) }
        ensures same { OnOk result (IsSameRun self.old.lead self.new.lead) }
        ensures seat { seat.new.algebra ≡ seat.old.algebra }
    {
        let spec = of_first(self.taken.take(), self.lead.first());
        self.lead.commit(alloc, seat, spec, steps)?;
        Ok(())
    }
}

// A publication, whose Spec is dropped where the job was taken.
fn publish_spec(board: &mut Board<Spec>, seat: u8, spec: Spec)
    requires { IsSome (hand board.old.log seat) }
    ensures log { board.new.log ≡ board.old.log ++ leave_events true seat (hand board.old.log seat) }
    ensures kept { (r : Option Spec) × IfSome (hand board.old.log seat) (λ j. MatchOption r
        ((standing board.old.log j ≢ Some Taken)
        × (board.new.kept ≡ slice_set board.old.kept (place_of (offered board.old.log) j) (Some spec)))
        (λ p. (standing board.old.log j ≡ Some Taken) × (p ≡ spec) × (board.new.kept ≡ board.old.kept))) }
    ensures seats { board.new.seats ≡ board.old.seats }
{
    let _late = board.publish(seat, spec);
}

// What was taken now, or else what was taken before.
fn either(now: Option<Spec>, before: Option<Spec>) -> Option<Spec>
    ensures { MatchOption now (result ≡ before) (λ s. result ≡ Some s) }
{
    match now {
        Some(spec) => Some(spec),
        None => before,
    }
}

// The Spec, where it is of this job.
fn of_first(spec: Option<Spec>, first: Option<&Job>) -> Option<Spec>
    ensures of { IfSome result (λ s. IsSome first.entry × IfSome first.entry (λ j. s.job ≡ j.now)) }
    ensures same { IfSome result (λ s. spec ≡ Some s) }
{
    let spec = spec?;
    if spec.job == *first? {
        Some(spec)
    } else {
        None
    }
}

// The first job that waits and is not on the board. It is looked for among the next jobs, each time twice
// as many.
fn first_waiting(alloc: Global, lead: &Lead, board: &Board<Spec>) -> Result<Option<Job>, AllocError>
    ensures value { IfOk result (λ o. o ≡ find (λ j. is_off (standing board.now.log j)) lead.now.jobs) }
    ensures facts { OnOk result (IsLead lead.now) }
{
    let mut count = 4usize;
    for _round in 0..62 {
        let jobs = lead.ahead(alloc, count)?;
        if let Some(job) = first_off(board, &jobs) {
            return Ok(Some(job));
        }
        if jobs.len() < count {
            return Ok(None);
        }
        count = count.saturating_mul(2);
    }
    Err(AllocError)
}

// The first job that is not on the board.
fn first_off(board: &Board<Spec>, jobs: &Vec<Job>) -> Option<Job>
    ensures { result ≡ find (λ j. is_off (standing board.now.log j)) jobs.now.items }
{
    for job in jobs {
        if board.standing(job).is_none() {
            return Some(*job);
        }
    }
    None
}

// Adds a hand, by rising seat.
fn put_hand(hands: &mut Vec<Hand>, hand: Hand) -> Result<(), AllocError>
    ensures { OnOk result (hands.new.items ≡ with_hand hand hands.old.items) }
{
    let place = place_for(hands, hand.seat);
    hands.insert(place, hand)?;
    Ok(())
}

// Where a seat's hand goes.
fn place_for(hands: &Vec<Hand>, seat: u8) -> usize
    ensures in_range { result ≤ length hands.now.items }
    ensures place { (hand : Hand) → hand.seat ≡ seat → insert hands.now.items result hand ≡ with_hand hand hands.now.items }
{
    for k in 0..hands.len() {
        if seat < hands[k].seat {
            return k;
        }
    }
    hands.len()
}

// The hand of a seat.
fn hand_at(hands: &Vec<Hand>, seat: u8) -> Option<Hand>
    ensures { result ≡ hand_at hands.now.items seat }
{
    for hand in hands {
        if hand.seat == seat {
            return Some(*hand);
        }
    }
    None
}

// The hands without that of a seat.
fn others(alloc: Global, hands: &Vec<Hand>, seat: u8) -> Result<Vec<Hand>, AllocError>
    ensures { IfOk result (λ r. r.items ≡ without_hand seat hands.now.items) }
{
    let mut left = Vec::new(alloc);
    for hand in hands {
        if hand.seat != seat {
            left.push(*hand)?;
        }
    }
    Ok(left)
}

// Whether it is a place over n variables.
fn is_place(n: usize, place: &Place) -> bool
    ensures { result ≡ is_place n place.now }
{
    1 <= place.i
        && place.i < place.j
        && usize::from(place.j) <= n
        && 1 <= place.a
        && place.a <= 16
        && 1 <= place.b
        && place.b <= 16
}

// Whether a place is among these.
fn is_filled(filled: &Vec<Place>, place: &Place) -> bool
    ensures { result ≡ list_any (same_place place.now) filled.now.items }
{
    for other in filled {
        if same_place(place, other) {
            return true;
        }
    }
    false
}

fn same_place(a: &Place, b: &Place) -> bool
    ensures { result ≡ same_place a.now b.now }
{
    a.i == b.i && a.j == b.j && a.a == b.a && a.b == b.b
}

fn push_place(filled: &mut Vec<Place>, place: Place) -> Result<(), AllocError>
    ensures { OnOk result (filled.new.items ≡ filled.old.items ++ place ∷ []) }
{
    filled.push(place)?;
    Ok(())
}

// The first elements of a basis.
#[derive(Drop)]
struct Prefix<'a> {
    basis: &'a Vec<GPoly>,
    count: u32,
    ghost within: { count ≤ length basis.now.items },
}

impl<'a> Elements for Prefix<'a> {
    ghost elements = { λ p. take p.count p.basis.now.items };

    fn count(&self) -> usize {
        self.count as usize
    }

    fn at(&self, k: u32) -> &GPoly {
        &self.basis[k as usize - 1]
    }
}

// What a hand publishes.
fn made<L: Ledger>(
    alloc: Global,
    seat: &mut TableSeat,
    lead: &Lead,
    hand: &Hand,
    steps: &mut Steps<L>,
) -> Result<Option<Spec>, AllocError>
    requires algebra { seat.old.algebra ≡ lead.now.algebra }
    requires named { IsNamed lead.now.algebra lead.now.generators lead.now.basis hand.now.job }
    requires within { hand.now.prefix ≤ length lead.now.basis }
    ensures value { IfOk result (λ r. r ≡ spec_of lead.now.algebra lead.now.generators lead.now.basis hand.now) }
    ensures seat { seat.new.algebra ≡ seat.old.algebra }
{
    let prefix = Prefix {
        basis: lead.basis(),
        count: hand.prefix,
    };
    spec_over(alloc, seat, &prefix, lead.generators(), &hand.job, steps)
}
