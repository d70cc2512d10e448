//! Rings with their values.

ghost use Rattle.std.specs.Prelude.{◌≡◌, ◌<◌, [], IfOk, map, string_bytes, IfSome, OnOk, option_copied};
ghost use Rattle.std.specs.Result.{OnErr};
ghost use Rattle.plural_text.specs.Names.{AreNames};
ghost use Rattle.script_model.specs.Environment.{find, put, variable_place};
ghost use Rattle.script_values.specs.Values.{IsValueOf};

use algebra::Algebra;
use monomials::Block;
use script_model::values::Value;
use std::alloc::{AllocError, Global};
use std::collections::BTreeMap;
use std::marker::Model;
use std::rc::Rc;

/// A ring: the names of its variables, its order as written, its algebra, whether `nc_algebra` made it, and its
/// values by their names.
#[derive(Drop)]
pub struct Ring {
    names: Vec<String>,
    blocks: Vec<Block>,
    algebra: Rc<Algebra>,
    made: bool,
    values: BTreeMap<Vec<u8>, Value>,
}

impl Model for Ring {
    ghost use Rattle.script_model.specs.Environment.{Ring as ModelRing};

    ghost Value = { ModelRing };

    ghost use Rattle.script_values.specs.Kept.{kept_ring, IsRing};

    ghost view = { kept_ring };

    ghost invariant = { IsRing };
}

impl Ring {
    /// A ring without values.
    pub fn new(
        alloc: Global,
        names: Vec<String>,
        blocks: Vec<Block>,
        algebra: Algebra,
        made: bool,
    ) -> Result<Ring, AllocError>
        requires names { AreNames algebra.order.vars (map string_bytes names.items) }
        ensures { IfOk result (λ ring. ring ≡ record { names = map string_bytes names.items; blocks = blocks.items; algebra = algebra; made = made; values = [] }) }
    {
        let Ok(algebra) = Rc::new(alloc, algebra) else {
            return Err(AllocError);
        };
        Ok(Ring {
            names,
            blocks,
            algebra,
            made,
            values: BTreeMap::new(alloc),
        })
    }

    /// The algebra.
    pub fn algebra(&self) -> &Algebra
        ensures { result.now ≡ self.now.algebra }
    {
        self.algebra.as_ref()
    }

    /// The algebra, to be kept while the ring changes.
    pub fn shared_algebra(&self) -> Result<Rc<Algebra>, AllocError>
        ensures { IfOk result (λ algebra. algebra.value ≡ self.now.algebra) }
    {
        self.algebra.clone()
    }

    /// The names of the variables.
    pub fn names(&self) -> &[String]
        ensures value { map string_bytes result.now ≡ self.now.names }
        ensures names { AreNames self.now.algebra.order.vars (map string_bytes result.now) }
    {
        &self.names
    }

    /// The order as written.
    pub fn blocks(&self) -> &[Block]
        ensures { result.now ≡ self.now.blocks }
    {
        &self.blocks
    }

    /// Whether `nc_algebra` made it.
    pub fn is_made(&self) -> bool
        ensures { result ≡ self.now.made }
    {
        self.made
    }

    /// The value of this name.
    pub fn find(&self, name: &[u8]) -> Option<&Value>
        ensures value { option_copied result ≡ find name.now self.now.values }
        ensures of_ring { IfSome result (λ v. IsValueOf self.now.algebra v.now) }
    {
        self.values.get(name)
    }

    /// The name names this value now. Where memory is wanting, the ring is as before.
    pub fn put(&mut self, alloc: Global, name: &[u8], value: Value) -> Result<(), AllocError>
        requires { IsValueOf self.old.algebra value }
        ensures value { OnOk result (self.new ≡ record (self.old) { values = put name.now value self.old.values }) }
        ensures refused { OnErr result (self.new ≡ self.old) }
    {
        let key = Vec::from_slice(alloc, name)?;
        match self.values.insert(key, value) {
            Ok(_) => Ok(()),
            Err(_) => Err(AllocError),
        }
    }

    /// The place of the variable of this name, counted from 0.
    pub fn variable_place(&self, name: &[u8]) -> Option<usize>
        ensures value { result ≡ variable_place self.now name.now }
        ensures place { IfSome result (λ place. place < self.now.algebra.order.vars) }
    {
        self.names
            .iter()
            .position(|variable| variable.as_bytes() == name)
    }
}
