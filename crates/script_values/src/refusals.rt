//! The lines and statuses of refusals.

ghost use Rattle.std.specs.Prelude.{◌≡◌, ◌++◌, codes, OnOk};
ghost use Rattle.std.specs.Fmt.{decimal};
ghost use Rattle.std.specs.Io.{StartsWith};
ghost use Rattle.std.specs.Result.{OnErr};
ghost use Rattle.script_model.specs.Refusals.{pair_text, refusal_line, words_of, status_of as status};

use itoa::{Buffer, Integer};
use script_model::values::Refusal;
use std::alloc::AllocError;

/// The status of a refusal.
pub fn status_of(refusal: &Refusal) -> u8
    ensures { result ≡ status refusal.now }
{
    match refusal {
        Refusal::Coefficient(..)
        | Refusal::Profile(..)
        | Refusal::Ordering(..)
        | Refusal::NonDegeneracy(..)
        | Refusal::NoElimination(..) => 3,
        Refusal::BudgetSpent(_) | Refusal::BasisFull | Refusal::DegreeOver => 4,
        _ => 1,
    }
}

/// Appends the line of a refusal. Where memory is wanting, a part of it may have been appended.
pub fn write_refusal(text: &mut Vec<u8>, line: u32, refusal: &Refusal) -> Result<(), AllocError>
    ensures value { OnOk result (text.new.items ≡ text.old.items ++ refusal_line line refusal.now) }
    ensures refused { OnErr result (StartsWith text.new.items text.old.items) }
{
    text.extend_from_slice(b"? line ")?;
    write_number(text, line)?;
    text.extend_from_slice(b": ")?;
    write_words(text, refusal)?;
    text.push(b'\n')?;
    Ok(())
}

/// Appends a number in decimal.
pub(crate) fn write_number<I: Integer>(text: &mut Vec<u8>, number: I) -> Result<(), AllocError>
    ensures value { OnOk result (text.new.items ≡ text.old.items ++ I.text number) }
    ensures refused { OnErr result (StartsWith text.new.items text.old.items) }
{
    let mut digits = Buffer::new();
    text.extend_from_slice(digits.format(number).as_bytes())
}

// Appends the words of a refusal.
fn write_words(text: &mut Vec<u8>, refusal: &Refusal) -> Result<(), AllocError>
    ensures value { OnOk result (text.new.items ≡ text.old.items ++ words_of refusal.now) }
    ensures refused { OnErr result (StartsWith text.new.items text.old.items) }
{
    match refusal {
        Refusal::NoRing => text.extend_from_slice(b"NoRing"),
        Refusal::Name(name) => write_named(text, b"Name ", name.as_slice()),
        Refusal::WrongRing(name) => write_named(text, b"WrongRing ", name.as_slice()),
        Refusal::Taken(name) => write_named(text, b"Taken ", name.as_slice()),
        Refusal::Kind => text.extend_from_slice(b"Kind"),
        Refusal::Index => text.extend_from_slice(b"Index"),
        Refusal::ZeroDivisor => text.extend_from_slice(b"ZeroDivisor"),
        Refusal::Limit => text.extend_from_slice(b"Limit"),
        Refusal::Characteristic(p) => write_numbered(text, b"Characteristic ", *p),
        Refusal::BadOrder => text.extend_from_slice(b"BadOrder"),
        Refusal::Coefficient(i, j) => write_pair(text, b"Coefficient ", *i, *j),
        Refusal::Profile(i, j) => write_pair(text, b"Profile ", *i, *j),
        Refusal::Ordering(i, j) => write_pair(text, b"Ordering ", *i, *j),
        Refusal::NonDegeneracy(i, j, k, rest) => write_triple(text, *i, *j, *k, rest.as_slice()),
        Refusal::NoElimination(i, j) => write_pair(text, b"NoElimination ", *i, *j),
        Refusal::BudgetSpent(budget) => write_numbered(text, b"BudgetSpent ", *budget),
        Refusal::BasisFull => text.extend_from_slice(b"BasisFull"),
        Refusal::DegreeOver => text.extend_from_slice(b"DegreeOver"),
    }
}

// Appends a word with a number behind it.
fn write_numbered<I: Integer>(text: &mut Vec<u8>, word: &[u8], number: I) -> Result<(), AllocError>
    ensures value { OnOk result (text.new.items ≡ text.old.items ++ (word.now ++ I.text number)) }
    ensures refused { OnErr result (StartsWith text.new.items text.old.items) }
{
    text.extend_from_slice(word)?;
    write_number(text, number)
}

// Appends a word with two numbers behind it.
fn write_pair(text: &mut Vec<u8>, word: &[u8], i: u8, j: u8) -> Result<(), AllocError>
    ensures value { OnOk result (text.new.items ≡ text.old.items ++ (word.now ++ pair_text i j)) }
    ensures refused { OnErr result (StartsWith text.new.items text.old.items) }
{
    write_numbered(text, word, i)?;
    write_numbered(text, b" ", j)
}

// Appends a word with a name behind it.
fn write_named(text: &mut Vec<u8>, word: &[u8], name: &[u8]) -> Result<(), AllocError>
    ensures value { OnOk result (text.new.items ≡ text.old.items ++ (word.now ++ name.now)) }
    ensures refused { OnErr result (StartsWith text.new.items text.old.items) }
{
    text.extend_from_slice(word)?;
    text.extend_from_slice(name)
}

// Appends the words of a triple of variables that leaves a rest.
fn write_triple(text: &mut Vec<u8>, i: u8, j: u8, k: u8, rest: &[u8]) -> Result<(), AllocError>
    ensures value { OnOk result (text.new.items ≡ text.old.items
        ++ (codes "NonDegeneracy " ++ (pair_text i j ++ (codes " " ++ (decimal k ++ (codes " " ++ rest.now)))))) }
    ensures refused { OnErr result (StartsWith text.new.items text.old.items) }
{
    write_pair(text, b"NonDegeneracy ", i, j)?;
    write_numbered(text, b" ", k)?;
    write_named(text, b" ", rest)
}
