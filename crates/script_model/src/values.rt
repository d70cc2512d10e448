//! Values of scripts, and why a script is refused. The definitions of `specs/` speak of these types
//! themselves, so a contract equates a value of the program with the definition's value.

ghost use Rattle.std.specs.Prelude.{◌≡◌, IfOk};

use gpoly::GPoly;
use run_records::Row;
use sqlite_items::Items;
use std::alloc::{AllocError, Global};

/// A value of a script: what an expression gives, and what a name stands for. All but a ring belong to
/// the ring in which they were made, whose polynomials they hold.
#[derive(Debug, Drop)]
pub enum Value {
    /// A polynomial, canonical in its ring's order.
    Poly(GPoly),
    /// An ideal by its generators, of which there may be none. They are as the script gives them, and
    /// need be no Gröbner basis.
    Ideal(Items<GPoly>),
    /// A module by its rows, of which there may be none.
    Module(Items<Row>),
    /// A matrix by its rows, all of one length; there is one at least, and each has an entry at least.
    Matrix(Items<Row>),
    /// Printed lines, each with its line feed.
    Lines(Items<u8>),
    /// A ring by its number, which counts all rings that the script has made, from 0 on.
    Ring(u32),
}

/// Why a script is refused. The words of each line and its status are the definition's `words_of` and
/// `status_of`: 1 for a rule of scripts, 3 for a condition on relations, 4 for a limit of a computation.
#[derive(Debug, Drop)]
pub enum Refusal {
    /// There is no current ring.
    NoRing,
    /// Nothing has this name.
    Name(Items<u8>),
    /// This name has a value in another ring than the current one.
    WrongRing(Items<u8>),
    /// This name is a variable's already, or stands twice among a ring's variables.
    Taken(Items<u8>),
    /// A value is of another kind than the rule takes, or there are too few or too many of them.
    Kind,
    /// An index is out of range; indices count from 1.
    Index,
    /// A polynomial is divided by a number that is zero modulo the characteristic.
    ZeroDivisor,
    /// This number is no characteristic of the table.
    Characteristic(u64),
    /// The items are no order of the variables.
    BadOrder,
    /// There are more than 16 variables, more than 4096 generators, an exponent above 4095, or a matrix
    /// with a side of 0 or above 16, or with fewer places than values.
    Limit,
    /// The number of the relation of variables i < j is zero. Variables count from 1.
    Coefficient(u8, u8),
    /// The polynomial of the relation of variables i < j has a degree above 2.
    Profile(u8, u8),
    /// The polynomial of the relation of variables i < j has a term that is not below their product.
    Ordering(u8, u8),
    /// The triple of variables i < j < k leaves a rest that is not zero, with the text of this rest.
    NonDegeneracy(u8, u8, u8, Items<u8>),
    /// Variables cannot be eliminated: the polynomial of the relation of variables i < j is not below
    /// their product where the order first compares how often those occur. Of such pairs it is the first.
    NoElimination(u8, u8),
    /// A run has as many entries as it may have, which is this number, and is not finished.
    BudgetSpent(u32),
    /// A run's basis would have more than 2048 elements.
    BasisFull,
    /// The degrees of the factors of a product add up to more than 4095.
    DegreeOver,
}

impl Value {
    /// The same value, in memory of its own.
    pub fn copy(&self, alloc: Global) -> Result<Value, AllocError>
        ensures { IfOk result (λ v. v ≡ self.now) }
    {
        Ok(match self {
            Value::Poly(f) => Value::Poly(f.copy(alloc)?),
            Value::Ideal(generators) => Value::Ideal(copy_polys(alloc, generators.as_slice())?),
            Value::Module(rows) => Value::Module(copy_rows(alloc, rows.as_slice())?),
            Value::Matrix(rows) => Value::Matrix(copy_rows(alloc, rows.as_slice())?),
            Value::Lines(text) => Value::Lines(Items::from_slice(alloc, text.as_slice())?),
            Value::Ring(number) => Value::Ring(*number),
        })
    }
}

/// The same polynomials, in memory of their own.
pub fn copy_polys(alloc: Global, polys: &[GPoly]) -> Result<Items<GPoly>, AllocError>
    ensures { IfOk result (λ copies. copies ≡ polys.now) }
{
    let mut copies = Items::new(alloc);
    for f in polys {
        copies.push(f.copy(alloc)?)?;
    }
    Ok(copies)
}

/// The same rows, in memory of their own.
pub fn copy_rows(alloc: Global, rows: &[Row]) -> Result<Items<Row>, AllocError>
    ensures { IfOk result (λ copies. copies ≡ rows.now) }
{
    let mut copies = Items::new(alloc);
    for row in rows {
        copies.push(row.copy(alloc)?)?;
    }
    Ok(copies)
}
