//! What a script has made so far.

ghost use Rattle.std.specs.Prelude.{◌≡◌, Some, is_some, option_copied, slice_get, IfSome, OnOk};
ghost use Rattle.std.specs.List.{list_any};
ghost use Rattle.std.specs.Result.{OnErr};
ghost use Rattle.script_model.specs.Environment.{find, here, newest_current, no_rings, put, with_ring, with_value};
ghost use Rattle.script_values.specs.Kept.{entries_of};
ghost use Rattle.script_values.specs.Values.{IsValueOf};

use crate::Ring;
use script_model::values::Value;
use std::alloc::{AllocError, Global};
use std::collections::BTreeMap;
use std::marker::Model;

/// Rings, the names of rings, and the current ring. A ring's number is its place, from 0.
#[derive(Drop)]
pub struct Environment {
    rings: Vec<Ring>,
    ring_names: BTreeMap<Vec<u8>, u32>,
    current: Option<usize>,
}

impl Model for Environment {
    ghost use Rattle.script_model.specs.Environment.{Environment as ModelEnvironment};

    ghost Value = { ModelEnvironment };

    ghost use Rattle.script_values.specs.KeptEnvironment.{kept_environment};

    ghost view = { kept_environment };
}

impl Environment {
    /// Nothing is made yet.
    pub fn new(alloc: Global) -> Environment
        ensures { result ≡ no_rings }
    {
        Environment {
            rings: Vec::new(alloc),
            ring_names: BTreeMap::new(alloc),
            current: None,
        }
    }

    /// The current ring.
    pub fn here(&self) -> Option<&Ring>
        ensures { option_copied result ≡ here self.now }
    {
        self.rings.get(self.current?)
    }

    /// The number of the ring of this name.
    pub fn ring_number(&self, name: &[u8]) -> Option<u32>
        ensures { result ≡ find name.now self.now.ring_names }
    {
        self.ring_names.get(name).copied()
    }

    /// The ring of this number is current now.
    pub fn set_current(&mut self, number: u32)
        ensures { self.new ≡ record (self.old) { current = Some number } }
    {
        self.current = Some(number as usize);
    }

    /// The current ring has a value of this name now. Where memory is wanting, nothing has changed.
    pub fn put(&mut self, alloc: Global, name: &[u8], value: Value) -> Result<(), AllocError>
        requires { IfSome (here self.old) (λ R. IsValueOf R.algebra value) }
        ensures value { OnOk result (self.new ≡ with_value self.old name.now value) }
        ensures refused { OnErr result (self.new ≡ self.old) }
    {
        let Some(number) = self.current else {
            return Ok(());
        };
        if number >= self.rings.len() {
            return Ok(());
        }
        let ring = &mut self.rings[number];
        ring.put(alloc, name, value)
    }

    /// The ring of this number.
    pub fn ring(&self, number: u32) -> Option<&Ring>
        ensures { option_copied result ≡ slice_get self.now.rings number }
    {
        self.rings.get(number as usize)
    }

    /// A new ring of this name. Where memory is wanting, nothing has changed.
    pub fn add_ring(&mut self, alloc: Global, name: &[u8], ring: Ring) -> Result<(), AllocError>
        ensures value { OnOk result (self.new ≡ with_ring self.old name.now ring) }
        ensures refused { OnErr result (self.new ≡ self.old) }
    {
        let Ok(number) = u32::try_from(self.rings.len()) else {
            return Err(AllocError);
        };
        // The room comes first, so that the last step cannot fail.
        self.rings.reserve(1)?;
        put_number(alloc, &mut self.ring_names, name, number)?;
        self.rings.push(ring)?;
        Ok(())
    }

    /// A new ring of this name, which is current now. Where memory is wanting, nothing has changed.
    pub fn add_current_ring(
        &mut self,
        alloc: Global,
        name: &[u8],
        ring: Ring,
    ) -> Result<(), AllocError>
        ensures value { OnOk result (self.new ≡ newest_current self.old name.now ring) }
        ensures refused { OnErr result (self.new ≡ self.old) }
    {
        let place = self.rings.len();
        self.add_ring(alloc, name, ring)?;
        self.current = Some(place);
        Ok(())
    }

    /// Whether some ring has a value of this name.
    pub fn is_known(&self, name: &[u8]) -> bool
        ensures { result ≡ list_any (λ R. is_some (find name.now R.values)) self.now.rings }
    {
        self.rings.iter().any(|ring| ring.find(name).is_some())
    }
}

// The name names this number now.
fn put_number(
    alloc: Global,
    numbers: &mut BTreeMap<Vec<u8>, u32>,
    name: &[u8],
    number: u32,
) -> Result<(), AllocError>
    ensures value { OnOk result (entries_of numbers.new.entries ≡ put name.now number (entries_of numbers.old.entries)) }
    ensures refused { OnErr result (numbers.new.entries ≡ numbers.old.entries) }
{
    let key = Vec::from_slice(alloc, name)?;
    match numbers.insert(key, number) {
        Ok(_) => Ok(()),
        Err(_) => Err(AllocError),
    }
}
