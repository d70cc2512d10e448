//! Sums that are gathered in buckets.

ghost use Rattle.std.specs.Prelude.{◌≡◌, ℕ, ◌+◌, ◌^◌, ◌<◌, ◌≤◌, IfOk, OnOk, MatchOption, List, [], ◌∷◌, map, drop, get_or, length, Some, None};
ghost use Rattle.std.specs.Result.{OnErr};
ghost use Rattle.monomials.specs.Monomials.{degree};
ghost use Rattle.monomials.specs.Orders.{order_cmp};
ghost use Rattle.monomials.specs.Polynomials.{Each, HasVars, IsPolynomial, poly_add};
ghost use Rattle.gpoly.specs.Terms.{pair_of, pairs_of, IsTermList};
ghost use Rattle.gpoly.specs.Sums.{poly_sum, AreSorted, HasRoom};
ghost use Rattle.gpoly.specs.Inside.Leads.{greater_lead, greatest_lead, leads_with, number_at, numbers_from, without, IsLead};
ghost use Rattle.gpoly.specs.Inside.Spilling.{Fits, Takes};

use crate::{GPoly, Term, merge};
use monomials::{Expo, Order};
use prime_field::Field;
use std::alloc::{AllocError, Global};
use std::cmp::Ordering;
use std::marker::Model;

// The last bucket, which takes any number of terms.
const LAST: usize = 13;

// How many terms the others take.
const ROOM: [usize; 13] = [
    4, 16, 64, 256, 1024, 4096, 16384, 65536, 262144, 1048576, 4194304, 16777216, 67108864,
];

/// A polynomial under many additions, kept as polynomials of growing length whose sum it is, so that
/// a short one that is added meets few terms (`HasRoom`). The field and the order are the caller's,
/// the same in all calls.
#[derive(Debug, Drop)]
pub struct Buckets {
    buckets: Vec<Bucket>,
}

impl Model for Buckets {
    ghost use Rattle.std.specs.Prelude.{List};
    ghost use Rattle.monomials.specs.Polynomials.{Polynomial};

    ghost Value = { List Polynomial };

    ghost view = { λ b. b.buckets.items };

    ghost use Rattle.gpoly.specs.Sums.{HasRoom};

    ghost invariant = { λ b. HasRoom b.buckets.items };
}

impl Buckets {
    /// The zero polynomial. Takes no memory.
    pub fn new(alloc: Global) -> Buckets
        ensures { result ≡ [] }
    {
        Buckets {
            buckets: Vec::new(alloc),
        }
    }

    /// The leading term, where the polynomial is not zero. The polynomial stays. Takes no memory.
    pub fn leading(&mut self, field: Field, order: &Order) -> Option<Term>
        requires sorted { AreSorted field order.now self.old }
        ensures sorted { AreSorted field order.now self.new }
        ensures value { poly_sum (order_cmp order.now.rows) field self.new
            ≡ poly_sum (order_cmp order.now.rows) field self.old }
        ensures lead { MatchOption result (poly_sum (order_cmp order.now.rows) field self.new ≡ [])
            (λ t. poly_sum (order_cmp order.now.rows) field self.new
            ≡ pair_of t ∷ drop 1 (poly_sum (order_cmp order.now.rows) field self.new)) }
        ensures small { MatchOption result (Unit {0}) (λ t. degree t.mono ≤ 4095) }
    {
        self.lead(field, order)
    }

    /// The leading term, where the polynomial is not zero, which loses it. Takes no memory.
    pub fn take_leading(&mut self, field: Field, order: &Order) -> Option<Term>
        requires sorted { AreSorted field order.now self.old }
        ensures sorted { AreSorted field order.now self.new }
        ensures lead { MatchOption result
            (poly_sum (order_cmp order.now.rows) field self.old ≡ []
            × poly_sum (order_cmp order.now.rows) field self.new ≡ [])
            (λ t. poly_sum (order_cmp order.now.rows) field self.old
            ≡ pair_of t ∷ poly_sum (order_cmp order.now.rows) field self.new) }
        ensures small { MatchOption result (Unit {0}) (λ t. degree t.mono ≤ 4095) }
    {
        let _p = field.p();
        let term = self.lead(field, order)?;
        self.take_off(order, &term.mono);
        Some(term)
    }

    /// Adds a polynomial. Where memory is wanting, it is dropped, and the buckets' polynomial is as
    /// before.
    pub fn add(
        &mut self,
        alloc: Global,
        field: Field,
        order: &Order,
        f: GPoly,
    ) -> Result<(), AllocError>
        requires sorted { AreSorted field order.now self.old }
        requires f_sorted { IsPolynomial field order.now f }
        ensures sorted { AreSorted field order.now self.new }
        ensures value { OnOk result (poly_sum (order_cmp order.now.rows) field self.new
            ≡ poly_add (order_cmp order.now.rows) field (poly_sum (order_cmp order.now.rows) field self.old) f) }
        ensures refused { OnErr result (poly_sum (order_cmp order.now.rows) field self.new
            ≡ poly_sum (order_cmp order.now.rows) field self.old) }
    {
        let count = f.terms().len();
        let k = level(count);
        self.make_room(alloc, field, order, k, count)?;
        self.put(alloc, field, order, k, f)
    }

    /// The polynomial. Where memory is wanting, the buckets are dropped.
    pub fn into_poly(self, alloc: Global, field: Field, order: &Order) -> Result<GPoly, AllocError>
        requires sorted { AreSorted field order.now self }
        ensures value { IfOk result (λ r. r ≡ poly_sum (order_cmp order.now.rows) field self) }
        ensures sorted { IfOk result (λ r. IsPolynomial field order.now r) }
    {
        let _p = field.p();
        let mut sum = GPoly::zero(alloc);
        let mut k = self.buckets.len();
        while k > 0 {
            k -= 1;
            sum = self.buckets[k].added_to(alloc, field, order, sum)?;
        }
        Ok(sum)
    }

    // Makes bucket k one that takes so many terms more: from it up to the first that has room, each
    // goes into the next.
    fn make_room(
        &mut self,
        alloc: Global,
        field: Field,
        order: &Order,
        k: usize,
        count: usize,
    ) -> Result<(), AllocError>
        requires sorted { AreSorted field order.now self.old }
        requires level { k ≤ 13 }
        requires fits { Fits k count }
        ensures sorted { AreSorted field order.now self.new }
        ensures value { poly_sum (order_cmp order.now.rows) field self.new
            ≡ poly_sum (order_cmp order.now.rows) field self.old }
        ensures reached { OnOk result (k < length self.new) }
        ensures room { OnOk result (Fits k (length (get_or self.new k []) + count)) }
    {
        let mut top = self.first_with_room(k, count);
        self.reach(alloc, field, order, top)?;
        while top > k {
            top -= 1;
            self.raise(alloc, field, order, top)?;
        }
        Ok(())
    }

    // The first bucket from k on that takes what is to go into it: so many terms into bucket k, and
    // into each other one those of the bucket before it.
    fn first_with_room(&self, k: usize, count: usize) -> usize
        requires { k ≤ 13 }
        ensures above { k ≤ result }
        ensures level { result ≤ 13 }
        ensures takes { Takes k count self.now result }
    {
        let mut top = k;
        let mut coming = count;
        while top < LAST {
            let held = self.count(top);
            if held <= room(top) && coming <= room(top) - held {
                return top;
            }
            coming = held;
            top += 1;
        }
        top
    }

    // How many terms bucket k has.
    fn count(&self, k: usize) -> usize
        ensures { result ≡ length (get_or self.now k []) }
    {
        match self.buckets.get(k) {
            Some(bucket) => bucket.terms().len(),
            None => 0,
        }
    }

    // Makes empty buckets up to bucket k.
    fn reach(
        &mut self,
        alloc: Global,
        field: Field,
        order: &Order,
        k: usize,
    ) -> Result<(), AllocError>
        requires sorted { AreSorted field order.now self.old }
        requires level { k ≤ 13 }
        ensures sorted { AreSorted field order.now self.new }
        ensures value { poly_sum (order_cmp order.now.rows) field self.new
            ≡ poly_sum (order_cmp order.now.rows) field self.old }
        ensures reached { OnOk result (k < length self.new) }
        ensures same { (j : ℕ) → get_or self.new j [] ≡ get_or self.old j [] }
    {
        while self.buckets.len() <= k {
            self.buckets.push(Bucket::new(alloc))?;
        }
        Ok(())
    }

    // Adds bucket k to the next one.
    fn raise(
        &mut self,
        alloc: Global,
        field: Field,
        order: &Order,
        k: usize,
    ) -> Result<(), AllocError>
        requires sorted { AreSorted field order.now self.old }
        requires inside { k + 1 < length self.old }
        requires room { Fits (k + 1) (length (get_or self.old k []) + length (get_or self.old (k + 1) [])) }
        ensures sorted { AreSorted field order.now self.new }
        ensures value { poly_sum (order_cmp order.now.rows) field self.new
            ≡ poly_sum (order_cmp order.now.rows) field self.old }
        ensures length { length self.new ≡ length self.old }
        ensures empty { OnOk result (get_or self.new k [] ≡ []) }
        ensures below { (j : ℕ) → j < k → get_or self.new j [] ≡ get_or self.old j [] }
        ensures short { HasRoom self.new }
    {
        let _p = field.p();
        let sum = self.buckets[k].plus(alloc, field, order, &self.buckets[k + 1])?;
        self.buckets[k + 1] = sum;
        self.buckets[k] = Bucket::new(alloc);
        Ok(())
    }

    // Adds a polynomial to bucket k.
    fn put(
        &mut self,
        alloc: Global,
        field: Field,
        order: &Order,
        k: usize,
        f: GPoly,
    ) -> Result<(), AllocError>
        requires sorted { AreSorted field order.now self.old }
        requires f_sorted { IsPolynomial field order.now f }
        requires inside { k < length self.old }
        requires room { Fits k (length (get_or self.old k []) + length f) }
        ensures sorted { AreSorted field order.now self.new }
        ensures value { OnOk result (poly_sum (order_cmp order.now.rows) field self.new
            ≡ poly_add (order_cmp order.now.rows) field (poly_sum (order_cmp order.now.rows) field self.old) f) }
        ensures refused { OnErr result (self.new ≡ self.old) }
    {
        let _p = field.p();
        let sum = self.buckets[k].added_to(alloc, field, order, f)?;
        self.buckets[k] = Bucket::of(sum);
        Ok(())
    }

    // The leading term, whose number is what the buckets' leading terms with its monomial add up to.
    fn lead(&mut self, field: Field, order: &Order) -> Option<Term>
        requires sorted { AreSorted field order.now self.old }
        ensures sorted { AreSorted field order.now self.new }
        ensures value { poly_sum (order_cmp order.now.rows) field self.new
            ≡ poly_sum (order_cmp order.now.rows) field self.old }
        ensures vars { MatchOption result (Unit {0}) (λ t. length t.mono ≡ order.now.vars) }
        ensures small { MatchOption result (Unit {0}) (λ t. degree t.mono ≤ 4095) }
        ensures lead { MatchOption result (poly_sum (order_cmp order.now.rows) field self.new ≡ [])
            (λ t. IsLead field order.now self.new (pair_of t)) }
    {
        let _p = field.p();
        while let Some(mono) = self.greatest(order) {
            let coef = self.number_at(field, order, &mono);
            if coef != 0 {
                return Some(Term { coef, mono });
            }
            self.take_off(order, &mono);
        }
        None
    }

    // The greatest monomial of the buckets' leading terms.
    fn greatest(&self, order: &Order) -> Option<Expo>
        requires vars { Each (HasVars order.now.vars) self.now }
        ensures value { MatchOption result (greatest_lead (order_cmp order.now.rows) None self.now ≡ None)
            (λ m. greatest_lead (order_cmp order.now.rows) None self.now ≡ Some m) }
        ensures vars { MatchOption result (Unit {0}) (λ m. length m ≡ order.now.vars) }
        ensures small { MatchOption result (Unit {0}) (λ m. degree m ≤ 4095) }
    {
        let mut greatest = None;
        for bucket in &self.buckets {
            greatest = greater_lead(order, greatest, bucket);
        }
        greatest
    }

    // The sum of the numbers of the buckets' leading terms with this monomial.
    fn number_at(&self, field: Field, order: &Order, mono: &Expo) -> u32
        requires sorted { AreSorted field order.now self.now }
        requires vars { length mono.now ≡ order.now.vars }
        ensures value { result ≡ numbers_from (order_cmp order.now.rows) field mono.now 0 self.now }
        ensures in_range { result < field }
    {
        let _p = field.p();
        let mut number = 0;
        for bucket in &self.buckets {
            number = field.add(number, bucket.number_at(field, order, mono));
        }
        number
    }

    // Takes the leading terms with this monomial off the buckets.
    fn take_off(&mut self, order: &Order, mono: &Expo)
        requires vars { Each (HasVars order.now.vars) self.old }
        requires mono_vars { length mono.now ≡ order.now.vars }
        ensures { self.new ≡ map (without (order_cmp order.now.rows) mono.now) self.old }
    {
        for k in 0..self.buckets.len() {
            self.buckets[k].take_off(order, mono);
        }
    }
}

// The greater of a monomial and that of the bucket's leading term, where there are any.
fn greater_lead(order: &Order, mono: Option<Expo>, bucket: &Bucket) -> Option<Expo>
    requires bucket { HasVars order.now.vars bucket.now }
    requires vars { MatchOption mono (Unit {0}) (λ m. length m ≡ order.now.vars) }
    requires small { MatchOption mono (Unit {0}) (λ m. degree m ≤ 4095) }
    ensures value { result ≡ greater_lead (order_cmp order.now.rows) mono bucket.now }
    ensures vars { MatchOption result (Unit {0}) (λ m. length m ≡ order.now.vars) }
    ensures small { MatchOption result (Unit {0}) (λ m. degree m ≤ 4095) }
{
    let Some(term) = bucket.leading() else {
        return mono;
    };
    match mono {
        Some(mono) if order.compare(&mono, &term.mono) != Ordering::Less => Some(mono),
        _ => Some(term.mono),
    }
}

// The terms of a sorted polynomial that are left, where the first ones were taken off.
#[derive(Debug, Drop)]
struct Bucket {
    poly: GPoly,
    taken: usize,
}

impl Model for Bucket {
    ghost use Rattle.std.specs.Prelude.{drop, length, ◌≤◌};
    ghost use Rattle.monomials.specs.Polynomials.{Polynomial};

    ghost Value = { Polynomial };

    ghost view = { λ b. drop b.taken b.poly };

    ghost invariant = { λ b. b.taken ≤ length b.poly };
}

impl Bucket {
    // No terms.
    fn new(alloc: Global) -> Bucket
        ensures { result ≡ [] }
    {
        Bucket::of(GPoly::zero(alloc))
    }

    // All terms of a polynomial.
    fn of(poly: GPoly) -> Bucket
        ensures { result ≡ poly }
    {
        Bucket { poly, taken: 0 }
    }

    // The sum of what is left here and of f.
    fn added_to(
        &self,
        alloc: Global,
        field: Field,
        order: &Order,
        f: GPoly,
    ) -> Result<GPoly, AllocError>
        requires sorted { IsPolynomial field order.now self.now }
        requires f_sorted { IsPolynomial field order.now f }
        ensures { IfOk result (λ r. r ≡ poly_add (order_cmp order.now.rows) field self.now f) }
    {
        let terms = self.terms();
        if terms.is_empty() {
            return Ok(f);
        }
        sum_of(alloc, field, order, terms, f.terms())
    }

    // The sum of what is left here and there.
    fn plus(
        &self,
        alloc: Global,
        field: Field,
        order: &Order,
        other: &Bucket,
    ) -> Result<Bucket, AllocError>
        requires sorted { IsPolynomial field order.now self.now }
        requires other_sorted { IsPolynomial field order.now other.now }
        ensures { IfOk result (λ r. r ≡ poly_add (order_cmp order.now.rows) field self.now other.now) }
    {
        let sum = sum_of(alloc, field, order, self.terms(), other.terms())?;
        Ok(Bucket::of(sum))
    }

    // The terms that are left.
    fn terms(&self) -> &[Term]
        ensures value { pairs_of result.now ≡ self.now }
        ensures facts { IsTermList self.now }
    {
        &self.poly.terms()[self.taken..]
    }

    // The leading term.
    fn leading(&self) -> Option<&Term>
        ensures first { MatchOption result (self.now ≡ []) (λ t. self.now ≡ pair_of t.now ∷ drop 1 self.now) }
        ensures small { MatchOption result (Unit {0}) (λ t. degree t.now.mono ≤ 4095) }
    {
        self.terms().first()
    }

    // Whether this is the leading monomial.
    fn leads_with(&self, order: &Order, mono: &Expo) -> bool
        requires vars { HasVars order.now.vars self.now }
        requires mono_vars { length mono.now ≡ order.now.vars }
        ensures { result ≡ leads_with (order_cmp order.now.rows) mono.now self.now }
    {
        match self.leading() {
            Some(term) => order.compare(mono, &term.mono) == Ordering::Equal,
            None => false,
        }
    }

    // The number of the leading term, where this is its monomial, and 0 else.
    fn number_at(&self, field: Field, order: &Order, mono: &Expo) -> u32
        requires sorted { IsPolynomial field order.now self.now }
        requires mono_vars { length mono.now ≡ order.now.vars }
        ensures value { result ≡ number_at (order_cmp order.now.rows) mono.now self.now }
        ensures in_range { result < field }
    {
        let _p = field.p();
        if self.leads_with(order, mono) {
            return self.terms()[0].coef;
        }
        0
    }

    // Takes the leading term off, where this is its monomial.
    fn take_off(&mut self, order: &Order, mono: &Expo)
        requires vars { HasVars order.now.vars self.old }
        requires mono_vars { length mono.now ≡ order.now.vars }
        ensures { self.new ≡ without (order_cmp order.now.rows) mono.now self.old }
    {
        if self.leads_with(order, mono) {
            self.take_first();
        }
    }

    // Takes the leading term off, where there is one.
    fn take_first(&mut self)
        ensures { self.new ≡ drop 1 self.old }
    {
        if self.taken < self.poly.terms().len() {
            self.taken += 1;
        }
    }
}

// The sum of sorted terms, as a polynomial.
fn sum_of(
    alloc: Global,
    field: Field,
    order: &Order,
    left: &[Term],
    right: &[Term],
) -> Result<GPoly, AllocError>
    requires left { IsPolynomial field order.now (pairs_of left.now) }
    requires right { IsPolynomial field order.now (pairs_of right.now) }
    requires left_terms { IsTermList (pairs_of left.now) }
    requires right_terms { IsTermList (pairs_of right.now) }
    ensures { IfOk result (λ r. r ≡ poly_add (order_cmp order.now.rows) field (pairs_of left.now) (pairs_of right.now)) }
{
    let _p = field.p();
    let terms = merge::merged(alloc, field, order, left, 1, right)?;
    Ok(GPoly { terms })
}

// The bucket for so many terms.
fn level(count: usize) -> usize
    ensures level { result ≤ 13 }
    ensures fits { Fits result count }
{
    let mut k = 0;
    while k < LAST && count > room(k) {
        k += 1;
    }
    k
}

// How many terms bucket k takes.
fn room(k: usize) -> usize
    requires { k ≤ 12 }
    ensures { result ≡ 4 ^ (k + 1) }
{
    ROOM[k]
}
