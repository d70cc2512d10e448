//! A gate on one thread.

use crate::{Gate, MeetGate, NoGate, Point};
use std::test::Fail;

#[test]
fn one_thread_meets_nobody(rt: HostRuntime) -> Result<(), Fail> {
    let gate = MeetGate::new(3);
    assert!(rt; !gate.met());
    gate.at(Point::BeforeClaim(1));
    gate.at(Point::BeforeTake);
    gate.at(Point::BeforeTake);
    gate.at(Point::BeforeCommit(true));
    assert!(rt; !gate.met());
    NoGate.at(Point::BeforePublish(1));
    Ok(())
}
