//! Points that threads pass, at which a test may make them meet.

use std::sync::atomic::{AtomicBool, AtomicU64, Ordering};
use std::thread;

/// A point that a thread passes.
#[derive(Clone, Copy, Debug, PartialEq, Eq)]
pub enum Point {
    /// The worker of this seat is about to claim.
    BeforeClaim(u8),
    /// The worker of this seat is about to publish.
    BeforePublish(u8),
    /// The leader is about to take its first job from the board.
    BeforeTake,
    /// The leader is about to commit, and whether it gives the commit a Spec.
    BeforeCommit(bool),
}

/// What is told of each point that a thread passes. It answers nothing, and no result depends on it.
pub trait Gate {
    /// This thread is at this point. It passes when the call returns.
    fn at(&self, point: Point);
}

/// A gate at which nobody waits.
#[derive(Clone, Copy, Debug)]
pub struct NoGate;

impl Gate for NoGate {
    fn at(&self, _point: Point) {}
}

/// A gate that makes two workers and the leader meet. The first claims of seats 1 and 2 wait for each
/// other, and the second take waits until a worker that has published comes to a claim, so that what it
/// published stands on the board. Each wait ends after a number of turns, and a turn is one look.
#[derive(Debug, Drop)]
pub struct MeetGate {
    limit: u64,
    first: AtomicBool,
    second: AtomicBool,
    // A bit for each worker that came to a publication.
    published: AtomicU64,
    came: AtomicBool,
    takes: AtomicU64,
    met: AtomicU64,
    given: AtomicBool,
}

impl MeetGate {
    /// A gate whose waits end after `limit` turns. Takes no memory.
    pub fn new(limit: u64) -> MeetGate {
        MeetGate {
            limit,
            first: AtomicBool::new(false),
            second: AtomicBool::new(false),
            published: AtomicU64::new(0),
            came: AtomicBool::new(false),
            takes: AtomicU64::new(0),
            met: AtomicU64::new(0),
            given: AtomicBool::new(false),
        }
    }

    /// Whether all three waits took place, none used up its turns, and some commit was given a Spec.
    /// Takes no memory.
    pub fn met(&self) -> bool {
        self.met.load(Ordering::SeqCst) == 3 && self.given.load(Ordering::SeqCst)
    }

    // Waits until a flag is set, for as many turns as the limit. Each of the three waits comes once.
    fn wait(&self, flag: &AtomicBool) {
        for _ in 0..self.limit {
            if flag.load(Ordering::SeqCst) {
                self.met.fetch_add(1, Ordering::SeqCst);
                return;
            }
            thread::yield_now();
        }
    }

    fn at_claim(&self, seat: u8) {
        if self.published.load(Ordering::SeqCst) & bit_of(seat) != 0 {
            self.came.store(true, Ordering::SeqCst);
        }
        if seat == 1 && !self.first.swap(true, Ordering::SeqCst) {
            self.wait(&self.second);
        }
        if seat == 2 && !self.second.swap(true, Ordering::SeqCst) {
            self.wait(&self.first);
        }
    }
}

// The bit of a worker's seat; none for the leader's.
fn bit_of(seat: u8) -> u64 {
    if seat == 0 || seat > 64 {
        0
    } else {
        1 << (seat - 1)
    }
}

impl Gate for MeetGate {
    fn at(&self, point: Point) {
        match point {
            Point::BeforeClaim(seat) => self.at_claim(seat),
            Point::BeforePublish(seat) => {
                self.published.fetch_or(bit_of(seat), Ordering::SeqCst);
            }
            Point::BeforeTake => {
                if self.takes.fetch_add(1, Ordering::SeqCst) == 1 {
                    self.wait(&self.came);
                }
            }
            Point::BeforeCommit(given) => {
                if given {
                    self.given.store(true, Ordering::SeqCst);
                }
            }
        }
    }
}
