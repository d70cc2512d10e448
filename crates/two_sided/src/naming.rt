//! Whether what a certificate names is there.

ghost use Rattle.std.specs.Prelude.{◌≡◌, ◌≤◌, ◌&&◌, nat_le, IsTrue};
ghost use Rattle.two_sided.specs.Checks.{names_job, names_elements};

use run_records::{Job, Trace};

// Whether a job names generators, elements and variables among so many, and of a pair the first
// element before the second.
pub(crate) fn names_job(gens: usize, elements: usize, variables: usize, job: &Job) -> bool
    ensures { result ≡ names_job gens elements variables job.now }
{
    match *job {
        Job::Seed { s } => 1 <= s && s as usize <= gens,
        Job::Pair { i, j } => 1 <= i && i < j && j as usize <= elements,
        Job::Right { i, v } => {
            1 <= i && i as usize <= elements && 1 <= v && usize::from(v) <= variables
        }
    }
}

// Whether a number is that of an element among so many.
pub(crate) fn names_element(elements: usize, number: u32) -> bool
    ensures value { result ≡ (nat_le 1 number && nat_le number elements) }
    ensures range { IsTrue result → (1 ≤ number) × (number ≤ elements) }
{
    1 <= number && number as usize <= elements
}

// Whether steps name elements among so many.
pub(crate) fn names_elements(elements: usize, trace: &Trace) -> bool
    ensures { result ≡ names_elements elements trace.now }
{
    for step in trace.steps() {
        if !names_element(elements, step.index) {
            return false;
        }
    }
    true
}
