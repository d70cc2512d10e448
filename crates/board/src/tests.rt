//! A worked board.

use super::*;
use std::test::Fail;

fn push_job(text: &mut String, job: &Job) -> Result<(), AllocError> {
    match job {
        Job::Seed { s } => write!(text, " Seed {s}")?,
        Job::Pair { i, j } => write!(text, " Pair {i} {j}")?,
        Job::Right { i, v } => write!(text, " Right {i} {v}")?,
    }
    Ok(())
}

fn push_event(text: &mut String, event: &BoardEvent) -> Result<(), AllocError> {
    match event {
        BoardEvent::Offer { job } => {
            text.push_str("Offer")?;
            push_job(text, job)?;
        }
        BoardEvent::Claim { seat, job } => {
            write!(text, "Claim {seat}")?;
            push_job(text, job)?;
        }
        BoardEvent::Publish { seat, job } => {
            write!(text, "Publish {seat}")?;
            push_job(text, job)?;
        }
        BoardEvent::Release { seat, job } => {
            write!(text, "Release {seat}")?;
            push_job(text, job)?;
        }
        BoardEvent::Take { job } => {
            text.push_str("Take")?;
            push_job(text, job)?;
        }
        BoardEvent::Close => text.push_str("Close")?,
    }
    text.push_str("; ")?;
    Ok(())
}

// A claim at a seat whose hand is empty.
fn claim(board: &mut Board<u32>, seat: u8) -> Option<Claimed> {
    if seat <= board.seats() && board.hand(seat).is_none() {
        Some(board.claim(seat))
    } else {
        None
    }
}

// A publication of a seat that has a job in hand.
fn publish(board: &mut Board<u32>, seat: u8, payload: u32) -> Option<Option<u32>> {
    if board.hand(seat).is_some() {
        Some(board.publish(seat, payload))
    } else {
        None
    }
}

const LOG: &str =
    "Offer Seed 2; Offer Seed 1; Claim 1 Seed 2; Claim 2 Seed 1; Publish 1 Seed 2; Take Seed 2; Take Seed 1; Publish 2 Seed 1; Close; ";

#[test]
fn answers_each_call(rt: HostRuntime) -> Result<(), Fail> {
    let alloc = rt.alloc();
    let (first, second) = (Job::Seed { s: 2 }, Job::Seed { s: 1 });
    let mut board: Board<u32> = Board::new(alloc, 3)?;
    board.offer(alloc, &[first, second])?;
    assert!(rt; claim(&mut board, 1) == Some(Claimed::Job(first)));
    assert!(rt; claim(&mut board, 2) == Some(Claimed::Job(second)));
    assert!(rt; claim(&mut board, 3) == Some(Claimed::NoneNow));
    assert!(rt; publish(&mut board, 1, 7) == Some(None));
    assert!(rt; board.take(&first) == Some(7));
    assert!(rt; board.take(&first) == None);
    assert!(rt; board.take(&second) == None);
    assert!(rt; publish(&mut board, 2, 8) == Some(Some(8)));
    board.close();
    assert!(rt; claim(&mut board, 3) == Some(Claimed::Closed));
    let mut text = String::new(alloc);
    for event in board.log() {
        push_event(&mut text, event)?;
    }
    assert_eq!(rt; text.as_str(), LOG);
    Ok(())
}

// The two jobs of a number, which no other number has.
fn two_jobs(i: u8, j: u8) -> (Job, Job) {
    let (i, j) = (u32::from(i), u32::from(j));
    (
        Job::Pair { i, j },
        Job::Right {
            i: 64 * i + j,
            v: 2,
        },
    )
}

// An offer of both, as a caller makes it who knows no more of the board.
fn offer(board: &mut Board<u32>, alloc: Global, i: u8, j: u8) -> Result<bool, AllocError> {
    let (i, j) = (u32::from(i), u32::from(j));
    let (first, second) = (
        Job::Pair { i, j },
        Job::Right {
            i: 64 * i + j,
            v: 2,
        },
    );
    if board.closed() || board.standing(&first).is_some() || board.standing(&second).is_some() {
        return Ok(false);
    }
    board.offer(alloc, &[first, second])?;
    Ok(true)
}

// The same, and once more where memory was wanting: the board is as it was then.
fn offer_again(board: &mut Board<u32>, alloc: Global, i: u8, j: u8) -> Result<bool, AllocError> {
    match offer(board, alloc, i, j) {
        Ok(is_new) => Ok(is_new),
        Err(_) => offer(board, alloc, i, j),
    }
}

// All pairs up to 40 come on the board, some of them are taken, and the others are claimed in order.
#[test]
fn finds_each_of_many_jobs(rt: HostRuntime) -> Result<(), Fail> {
    let alloc = rt.alloc();
    let mut board: Board<u32> = Board::new(alloc, 0)?;
    for j in 2..41 {
        for i in 1..j {
            assert!(rt; offer_again(&mut board, alloc, i, j)?);
        }
    }
    assert!(rt; !offer_again(&mut board, alloc, 1, 2)?);
    for j in 2..41 {
        for i in 1..j {
            if i % 2 == 0 {
                assert!(rt; board.take(&two_jobs(i, j).0) == None);
            }
        }
    }
    for j in 2..41 {
        for i in 1..j {
            let (first, second) = two_jobs(i, j);
            if i % 2 == 1 {
                assert!(rt; claim(&mut board, 0) == Some(Claimed::Job(first)));
                assert!(rt; claim(&mut board, 0) == None);
                assert!(rt; publish(&mut board, 0, u32::from(j)) == Some(None));
            }
            assert!(rt; claim(&mut board, 0) == Some(Claimed::Job(second)));
            assert!(rt; publish(&mut board, 0, u32::from(i)) == Some(None));
        }
    }
    assert!(rt; claim(&mut board, 0) == Some(Claimed::NoneNow));
    for j in 2..41 {
        for i in 1..j {
            let (first, second) = two_jobs(i, j);
            let kept = if i % 2 == 1 { Some(u32::from(j)) } else { None };
            assert!(rt; board.take(&first) == kept);
            assert!(rt; board.take(&second) == Some(u32::from(i)));
        }
    }
    board.close();
    assert!(rt; !offer_again(&mut board, alloc, 50, 51)?);
    Ok(())
}
