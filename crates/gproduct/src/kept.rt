//! Products that a seat keeps, so that it need not make them again.

ghost use Rattle.std.specs.Prelude.{◌≡◌, ◌≢◌, ℕ, ◌<◌, List, [], ◌∷◌, IsTrue, IfSome, IfOk, OnOk, length, slice_index_or};
ghost use Rattle.monomials.specs.Polynomials.{Polynomial, IsPolynomial};
ghost use Rattle.word_model.specs.Words.{Algebra as GAlgebra};
ghost use Rattle.word_model.specs.Products.{product};
ghost use Rattle.gproduct.specs.Inside.Kept.{factor_at, IsKept, AreKept};

use gpoly::GPoly;
use monomials::Expo;
use std::alloc::{AllocError, Global};

/// The greatest number under which a product is kept.
const MOST_NUMBER: u32 = 2048;

/// How many terms are kept at most, those of the factors too.
const MOST_TERMS: usize = 65536;

/// How many slots there are at first.
const FIRST_SLOTS: usize = 256;

/// How many slots there are at most.
const MOST_SLOTS: usize = 16384;

// The product of a monomial with the factor of this number.
#[derive(Drop)]
pub(crate) struct KeptProduct {
    pub(crate) number: u32,
    pub(crate) mono: Expo,
    pub(crate) product: GPoly,
}

/// Products of monomials with factors that have numbers, each in the slot of its number and its
/// monomial, where the last one stays.
#[derive(Drop)]
pub(crate) struct KeptProducts {
    // At its number each factor that was met, and zero elsewhere.
    factors: Vec<GPoly>,
    slots: Vec<Option<KeptProduct>>,
    // How many slots are filled, and how many terms are kept: nothing relies on either.
    filled: usize,
    terms: usize,
}

impl KeptProducts {
    /// Nothing is kept. Takes no memory.
    pub(crate) fn new(alloc: Global) -> KeptProducts
        ensures kept { (A : GAlgebra) → AreKept A result.factors.items result.slots.items }
        ensures none { result.factors.items ≡ [] }
    {
        KeptProducts {
            factors: Vec::new(alloc),
            slots: Vec::new(alloc),
            filled: 0,
            terms: 0,
        }
    }

    /// The product of a monomial with `f`, where it is kept under this number.
    pub(crate) fn find(&self, number: u32, mono: &Expo, f: &GPoly) -> Option<&GPoly>
        ensures { (A : GAlgebra) → AreKept A self.now.factors.items self.now.slots.items →
            IfSome result (λ r. IsPolynomial A.p A.order r.now × (r.now ≡ product A ((1, mono.now) ∷ []) f.now)) }
    {
        let slot = self.slots.get(slot_of(number, mono, self.slots.len()))?;
        let kept = slot.as_ref()?;
        if kept.is_of(number, mono) && is_factor(&self.factors, number, f) {
            Some(&kept.product)
        } else {
            None
        }
    }

    /// Keeps the product of a monomial with `f` under this number, unless it is too long.
    pub(crate) fn keep(
        &mut self,
        alloc: Global,
        number: u32,
        mono: &Expo,
        f: &GPoly,
        value: &GPoly,
    ) -> Result<(), AllocError>
        requires { f.now ≢ [] }
        ensures { (A : GAlgebra) → IsPolynomial A.p A.order value.now → value.now ≡ product A ((1, mono.now) ∷ []) f.now →
            AreKept A self.old.factors.items self.old.slots.items → AreKept A self.new.factors.items self.new.slots.items }
    {
        let terms = f.terms().len().saturating_add(value.terms().len());
        if number > MOST_NUMBER || terms > MOST_TERMS {
            return Ok(());
        }
        self.make_room(alloc, terms);
        self.set_factor(alloc, number, f)?;
        self.widen(alloc)?;
        let product = value.copy(alloc)?;
        let mono = *mono;
        self.put(KeptProduct {
            number,
            mono,
            product,
        });
        Ok(())
    }

    // Drops all where so many further terms would be too many.
    fn make_room(&mut self, alloc: Global, terms: usize)
        ensures { (A : GAlgebra) → AreKept A self.old.factors.items self.old.slots.items →
            AreKept A self.new.factors.items self.new.slots.items }
    {
        if self.terms.saturating_add(terms) > MOST_TERMS {
            *self = KeptProducts::new(alloc);
        }
    }

    // Drops all where a factor has this number.
    fn free(&mut self, alloc: Global, number: u32)
        ensures kept { (A : GAlgebra) → AreKept A self.old.factors.items self.old.slots.items →
            AreKept A self.new.factors.items self.new.slots.items }
        ensures free { factor_at self.new.factors.items number ≡ [] }
    {
        if !is_free(&self.factors, number) {
            *self = KeptProducts::new(alloc);
        }
    }

    // Gives the number to `f`: where another factor has it, all is dropped first.
    fn set_factor(&mut self, alloc: Global, number: u32, f: &GPoly) -> Result<(), AllocError>
        ensures kept { (A : GAlgebra) → AreKept A self.old.factors.items self.old.slots.items →
            AreKept A self.new.factors.items self.new.slots.items }
        ensures factor { OnOk result (factor_at self.new.factors.items number ≡ f.now) }
    {
        if is_factor(&self.factors, number, f) {
            return Ok(());
        }
        self.free(alloc, number);
        self.terms = self.terms.saturating_add(f.terms().len());
        add_factor(alloc, &mut self.factors, number, f)?;
        Ok(())
    }

    // Makes more slots where half of them are filled.
    fn widen(&mut self, alloc: Global) -> Result<(), AllocError>
        ensures kept { (A : GAlgebra) (factors : List Polynomial) → AreKept A factors self.old.slots.items →
            AreKept A factors self.new.slots.items }
        ensures factors { self.new.factors.items ≡ self.old.factors.items }
    {
        let count = self.slots.len();
        if self.filled >= count / 2 && count < MOST_SLOTS {
            spread(alloc, &mut self.slots, (count * 2).max(FIRST_SLOTS))?;
        }
        Ok(())
    }

    // Puts a product into its slot.
    fn put(&mut self, kept: KeptProduct)
        ensures kept { (A : GAlgebra) (factors : List Polynomial) → IsKept A factors kept →
            AreKept A factors self.old.slots.items → AreKept A factors self.new.slots.items }
        ensures factors { self.new.factors.items ≡ self.old.factors.items }
    {
        self.terms = self.terms.saturating_add(kept.product.terms().len());
        match put(&mut self.slots, kept) {
            None => self.filled = self.filled.saturating_add(1),
            Some(before) => {
                self.terms = self.terms.saturating_sub(before.product.terms().len());
            }
        }
    }
}

impl KeptProduct {
    // Whether it is of this number and this monomial.
    fn is_of(&self, number: u32, mono: &Expo) -> bool
        ensures { IsTrue result → (self.now.number ≡ number) × (self.now.mono ≡ mono.now) }
    {
        self.number == number && self.mono == *mono
    }
}

// The slot of a number and a monomial, among so many.
fn slot_of(number: u32, mono: &Expo, count: usize) -> usize {
    let mut mixed = u64::from(number);
    for word in mono.words() {
        mixed = (mixed ^ word)
            .wrapping_mul(0x9E37_79B9_7F4A_7C15)
            .rotate_left(29);
    }
    mixed as usize % count.max(1)
}

// Puts a product into its slot, and answers what stood there.
fn put(slots: &mut Vec<Option<KeptProduct>>, kept: KeptProduct) -> Option<KeptProduct>
    ensures { (A : GAlgebra) (factors : List Polynomial) → IsKept A factors kept →
        AreKept A factors slots.old.items → AreKept A factors slots.new.items }
{
    let index = slot_of(kept.number, &kept.mono, slots.len());
    if index < slots.len() {
        slots[index].replace(kept)
    } else {
        None
    }
}

// So many empty slots.
fn empty_slots(alloc: Global, count: usize) -> Result<Vec<Option<KeptProduct>>, AllocError>
    ensures { IfOk result (λ slots. (A : GAlgebra) (factors : List Polynomial) → AreKept A factors slots.items) }
{
    let mut slots = Vec::with_capacity(alloc, count)?;
    for _slot in 0..count {
        slots.push(None)?;
    }
    Ok(slots)
}

// Puts what stands in slots into so many.
fn spread(
    alloc: Global,
    slots: &mut Vec<Option<KeptProduct>>,
    count: usize,
) -> Result<(), AllocError>
    ensures { (A : GAlgebra) (factors : List Polynomial) →
        AreKept A factors slots.old.items → AreKept A factors slots.new.items }
{
    let mut more = empty_slots(alloc, count)?;
    while let Some(slot) = slots.pop() {
        if let Some(kept) = slot {
            let _before = put(&mut more, kept);
        }
    }
    *slots = more;
    Ok(())
}

// Whether `f` is the factor of this number.
fn is_factor(factors: &[GPoly], number: u32, f: &GPoly) -> bool
    ensures { IsTrue result → factor_at factors.now number ≡ f.now }
{
    match factors.get(number as usize) {
        Some(factor) => factor.equals(f),
        None => false,
    }
}

// Whether no factor has this number.
fn is_free(factors: &[GPoly], number: u32) -> bool
    ensures { IsTrue result → factor_at factors.now number ≡ [] }
{
    match factors.get(number as usize) {
        Some(factor) => factor.is_zero(),
        None => true,
    }
}

// Adds zeros until there is a place for this number.
fn add_places(alloc: Global, factors: &mut Vec<GPoly>, number: u32) -> Result<(), AllocError>
    ensures same { (k : ℕ) → factor_at factors.new.items k ≡ factor_at factors.old.items k }
    ensures place { OnOk result (number < length factors.new.items) }
{
    while factors.len() <= number as usize {
        factors.push(GPoly::zero(alloc))?;
    }
    Ok(())
}

// Gives a number that no factor has to `f`.
fn add_factor(
    alloc: Global,
    factors: &mut Vec<GPoly>,
    number: u32,
    f: &GPoly,
) -> Result<(), AllocError>
    requires { factor_at factors.old.items number ≡ [] }
    ensures others { (k : ℕ) → factor_at factors.old.items k ≢ [] → factor_at factors.new.items k ≡ factor_at factors.old.items k }
    ensures factor { OnOk result (factor_at factors.new.items number ≡ f.now) }
{
    add_places(alloc, factors, number)?;
    factors[number as usize] = f.copy(alloc)?;
    Ok(())
}
