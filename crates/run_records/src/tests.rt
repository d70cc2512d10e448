//! Records in memory of their own.

use super::*;
use gpoly::Term;
use monomials::{Block, Expo, Order};
use prime_field::Field;
use std::test::Fail;

#[test]
fn a_row_is_copied(rt: HostRuntime) -> Result<(), Fail> {
    let alloc = rt.alloc();
    let order = Order::new(alloc, &[Block::DegRev { len: 2 }], 2)?;
    let terms = [Term {
        coef: 6,
        mono: Expo::of(&[1, 0]),
    }];
    let f = GPoly::from_terms(alloc, Field::of(7)?, &order, &terms)?;
    let entries = Vec::from_array(alloc, [GPoly::zero(alloc), f]).map_err(AllocError::from)?;
    let row = Row { entries };
    let copy = row.copy(alloc)?;
    assert_eq!(rt; copy.entries.len(), 2);
    assert!(rt; copy.entries[0].is_zero());
    assert!(rt; copy.entries[1].equals(&row.entries[1]));
    Ok(())
}

// A trace of two steps in two variables.
fn two_steps(alloc: Global) -> Result<Trace, AllocError> {
    let mut trace = Trace::new(alloc);
    let step = |coef: u32, mono: Expo, index: u32| TraceStep { coef, mono, index };
    trace.push(step(6, Expo::of(&[1, 0]), 2))?;
    trace.push(step(1, Expo::of(&[0, 3]), 1))?;
    Ok(trace)
}

#[test]
fn a_trace_is_copied(rt: HostRuntime) -> Result<(), Fail> {
    let alloc = rt.alloc();
    let trace = two_steps(alloc)?;
    let copy = trace.copy(alloc)?;
    assert_eq!(rt; copy.steps().len(), 2);
    assert!(rt; copy.steps() == trace.steps());
    Ok(())
}

// Whether two entries are equal.
fn same(a: &Entry, b: &Entry) -> bool {
    match (a, b) {
        (Entry::Skipped { job, by }, Entry::Skipped { job: j, by: k }) => job == j && by == k,
        (Entry::Zero { job, trace }, Entry::Zero { job: j, trace: t }) => {
            job == j && trace.steps() == t.steps()
        }
        (
            Entry::New { job, trace, scale },
            Entry::New {
                job: j,
                trace: t,
                scale: k,
            },
        ) => job == j && trace.steps() == t.steps() && scale == k,
        _ => false,
    }
}

// Whether the copy of an entry is equal to it.
fn is_copied(alloc: Global, entry: &Entry) -> Result<bool, AllocError> {
    let copy = entry.copy(alloc)?;
    Ok(same(&copy, entry))
}

#[test]
fn entries_are_copied(rt: HostRuntime) -> Result<(), Fail> {
    let alloc = rt.alloc();
    let job = Job::Pair { i: 1, j: 2 };
    let skipped = Entry::Skipped { job, by: 3 };
    let job = Job::Seed { s: 4 };
    let trace = two_steps(alloc)?;
    let zero = Entry::Zero { job, trace };
    let job = Job::Right { i: 1, v: 2 };
    let trace = two_steps(alloc)?;
    let scale = 5;
    let new = Entry::New { job, trace, scale };
    assert!(rt; is_copied(alloc, &skipped)?);
    assert!(rt; is_copied(alloc, &zero)?);
    assert!(rt; is_copied(alloc, &new)?);
    Ok(())
}

/// Threads may share and send values of this type.
fn shared<T: Sync + Send>() {}

#[test]
fn threads_share_records() {
    shared::<Job>();
    shared::<TraceStep>();
    shared::<Trace>();
    shared::<Entry>();
    shared::<Spec>();
    shared::<Journal>();
}
