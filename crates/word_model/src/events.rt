//! What happens round the core, step by step: how jobs stand on a board, who has them in hand, and
//! the events of the threads that share the board and a table. The definitions of later layers speak
//! of these types themselves.

use crate::records::Job;

/// A place of a table of products: `x_j^a x_i^b`, where i < j are numbers of variables, counted
/// from 1, and both exponents are from 1 to 16.
#[derive(Clone, Copy, Debug, PartialEq, Eq)]
pub struct Place {
    pub i: u8,
    pub j: u8,
    pub a: u8,
    pub b: u8,
}

/// How a job stands on a board.
#[derive(Clone, Copy, Debug, PartialEq, Eq)]
pub enum Standing {
    /// It can be claimed.
    Offered,
    /// A seat has it in hand.
    Held { seat: u8 },
    /// A payload is kept for it.
    Published,
    /// A seat gave it back.
    Released,
    /// It was taken. It stays so.
    Taken,
}

/// A call on a board that had an effect.
#[derive(Clone, Copy, Debug, PartialEq, Eq)]
pub enum BoardEvent {
    Offer { job: Job },
    Claim { seat: u8, job: Job },
    Publish { seat: u8, job: Job },
    Release { seat: u8, job: Job },
    Take { job: Job },
    Close,
}

/// What a claim answers.
#[derive(Clone, Copy, Debug, PartialEq, Eq)]
pub enum Claimed {
    /// The board is closed.
    Closed,
    /// No job stands offered.
    NoneNow,
    /// The seat has this job in hand now.
    Job(Job),
}

/// An event of the core: an atomic step of one thread.
#[derive(Clone, Copy, Debug, PartialEq, Eq)]
pub enum Event {
    /// The least queued job that is not on the board is offered.
    Offer,
    /// A seat claims the earliest job that stands offered. It has seen so many elements.
    Claim { seat: u8, prefix: u32 },
    /// A place of the table is filled.
    Fill { place: Place },
    /// A seat publishes the job in its hand, reduced ahead by the elements that it has seen.
    Publish { seat: u8 },
    /// A seat gives the job in its hand back.
    Release { seat: u8 },
    /// The lead's first job is taken from the board, with what is published for it.
    Take,
    /// The lead makes a commit, with what was taken where that is of its first job.
    Commit,
    /// The board is closed.
    Close,
}

/// A hand that has a job: the seat, and how many elements it had seen when it claimed.
#[derive(Clone, Copy, Debug, PartialEq, Eq)]
pub struct Hand {
    pub seat: u8,
    pub job: Job,
    pub prefix: u32,
}
