//! Products that are still to be multiplied out.

ghost use Rattle.std.specs.Prelude.{◌≡◌, ◌∷◌, ◌++◌, [], IfOk, OnOk, MatchOption, length};
ghost use Rattle.gproduct.specs.Inside.Factors.{products_in, factor_count};

use monomials::Expo;
use std::alloc::{AllocError, Global};

/// A product: its number, and how many factors it has.
#[derive(Clone, Copy)]
pub struct Open {
    pub coef: u32,
    pub factors: usize,
}

/// A sum of products of sorted monomials. The factors of all stand in one list, those of the last
/// product behind, and within a product its first factor behind.
#[derive(Drop)]
pub struct Pending {
    pub open: Vec<Open>,
    pub factors: Vec<Expo>,
}

impl Pending {
    /// No product.
    pub fn new(alloc: Global) -> Pending
        ensures open { result.open.items ≡ [] }
        ensures factors { result.factors.items ≡ [] }
    {
        Pending {
            open: Vec::new(alloc),
            factors: Vec::new(alloc),
        }
    }

    /// Takes the last product: answers its number, and puts its factors into `taken`, in place of
    /// what was there.
    pub fn pop(&mut self, taken: &mut Vec<Expo>) -> Result<Option<u32>, AllocError>
        requires { factor_count self.old.open.items ≡ length self.old.factors.items }
        ensures counted { OnOk result (factor_count self.new.open.items ≡ length self.new.factors.items) }
        ensures product { IfOk result (λ r. MatchOption r ((self.old.open.items ≡ []) × (self.new.open.items ≡ []))
            (λ coef. products_in self.old.open.items self.old.factors.items
            ≡ products_in self.new.open.items self.new.factors.items ++ (coef, taken.new.items) ∷ [])) }
    {
        taken.clear();
        match self.open.pop() {
            None => Ok(None),
            Some(last) => {
                let start = self.factors.len() - last.factors;
                taken.extend_from_slice(&self.factors[start..])?;
                self.factors.truncate(start);
                Ok(Some(last.coef))
            }
        }
    }

    /// Adds a product: the factors of `front`, and before them in the list those of `tail`.
    pub fn push(&mut self, coef: u32, tail: &[Expo], front: &[Expo]) -> Result<(), AllocError>
        requires { factor_count self.old.open.items ≡ length self.old.factors.items }
        ensures counted { OnOk result (factor_count self.new.open.items ≡ length self.new.factors.items) }
        ensures product { OnOk result (products_in self.new.open.items self.new.factors.items
            ≡ products_in self.old.open.items self.old.factors.items
            ++ (coef, tail.now ++ front.now) ∷ []) }
    {
        self.factors.extend_from_slice(tail)?;
        self.factors.extend_from_slice(front)?;
        let factors = tail.len() + front.len();
        self.open.push(Open { coef, factors })?;
        Ok(())
    }
}
