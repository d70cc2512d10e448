//! What leader and workers do to the board while they have its lock. What the lock keeps is known by
//! its type alone, so each of these first looks at what the call that it makes rests on.

ghost use Rattle.std.specs.Prelude.{◌≡◌, ◌++◌, IsTrue, Some, true, false};
ghost use Rattle.board.specs.Boards.{hand, claim_events, leave_events};

use board::{Board, Claimed, Standing};
use run_records::Job;
use std::alloc::{AllocError, Global};

/// Event `Offer`, for each of these jobs that isn't on the board, in order; none where the board is
/// closed. Answers how many there were.
pub(crate) fn offer_new<P: Drop>(
    alloc: Global,
    board: &mut Board<P>,
    jobs: &[Job],
) -> Result<usize, AllocError> {
    let mut fresh = 0usize;
    for job in jobs {
        if !board.closed() && board.standing(job).is_none() {
            board.offer(alloc, &[*job])?;
            fresh = fresh.saturating_add(1);
        }
    }
    Ok(fresh)
}

/// Event `Claim`, where there is such a seat and its hand is empty. `Closed` where there isn't, or it
/// isn't: then the hand is not as its holder left it, and its holder ends.
pub(crate) fn claim<P: Drop>(board: &mut Board<P>, seat: u8) -> Claimed
    ensures log { board.new.log ≡ board.old.log ++ claim_events seat result }
{
    if seat <= board.seats() && board.hand(seat).is_none() {
        board.claim(seat)
    } else {
        Claimed::Closed
    }
}

/// Event `Publish`, where the hand of the seat has this job. Answers whether it had.
pub(crate) fn publish<P: Drop>(board: &mut Board<P>, seat: u8, job: &Job, payload: P) -> bool
    ensures done { result ≡ true → board.new.log ≡ board.old.log ++ leave_events true seat (Some job.now) }
    ensures left { result ≡ false → board.new ≡ board.old }
{
    if !has(board, seat, job) {
        return false;
    }
    let _late = board.publish(seat, payload);
    true
}

/// Event `Release`, where the hand of the seat has this job. Answers whether it had.
pub(crate) fn release<P: Drop>(board: &mut Board<P>, seat: u8, job: &Job) -> bool
    ensures done { result ≡ true → board.new.log ≡ board.old.log ++ leave_events false seat (Some job.now) }
    ensures left { result ≡ false → board.new ≡ board.old }
{
    if !has(board, seat, job) {
        return false;
    }
    board.release(seat);
    true
}

/// Whether a worker has the job in hand. No event.
pub(crate) fn is_with_a_worker<P: Drop>(board: &Board<P>, job: &Job) -> bool {
    matches!(board.standing(job), Some(Standing::Held { seat }) if seat > 0)
}

// Whether the hand of the seat has this job.
fn has<P: Drop>(board: &Board<P>, seat: u8, job: &Job) -> bool
    ensures { IsTrue result → hand board.now.log seat ≡ Some job.now }
{
    match board.hand(seat) {
        Some(held) => *held == *job,
        None => false,
    }
}
