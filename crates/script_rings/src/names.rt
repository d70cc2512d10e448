//! The names of a ring's variables.

ghost use Rattle.std.specs.Prelude.{◌≡◌, ◌≤◌, ℕ, List, ◌++◌, length, map, string_bytes, IfOk, OnOk, IfErr, MatchOption, Some, None, [], ◌∷◌, bytes_eq, nat_lt};
ghost use Rattle.std.specs.List.{list_any};
ghost use Rattle.monomials.specs.Polynomials.{Each};
ghost use Rattle.plural_syntax.specs.Words.{text_of};
ghost use Rattle.plural_text.specs.Names.{IsName};
ghost use Rattle.script_model.specs.Environment.{Ring as ModelRing};
ghost use Rattle.script_model.specs.Refusals.{Outcome};
ghost use Rattle.script_model.specs.Statements as spec;
ghost use Rattle.script_values.specs.Gives.{Stops};

use plural_lexer::Token;
use plural_syntax::{TokenAfter, Vars};
use script_model::values::Refusal;
use script_values::Stop;
use script_values::tokens::text;
use sqlite_items::Items;
use std::alloc::{AllocError, Global};

/// Whether there are more than 16 variables.
pub(crate) fn too_many(vars: &Vars) -> bool
    ensures { (bytes : List ℕ) → result ≡ nat_lt 16 (length (spec.names_of bytes vars.now)) }
{
    match vars {
        Vars::One { .. } => false,
        Vars::Many { names } => names.list.more.len() >= 16,
    }
}

/// The names of the variables.
pub(crate) fn names_of(alloc: Global, bytes: &[u8], vars: &Vars) -> Result<Vec<String>, AllocError>
    requires { Each IsName (spec.names_of bytes.now vars.now) }
    ensures { IfOk result (λ names. map string_bytes names.items ≡ spec.names_of bytes.now vars.now) }
{
    let mut names = Vec::new(alloc);
    match vars {
        Vars::One { name } => push_name(&mut names, alloc, bytes, name)?,
        Vars::Many { names: group } => {
            push_name(&mut names, alloc, bytes, &group.list.first)?;
            push_names(&mut names, alloc, bytes, group.list.more.as_slice())?;
        }
    }
    Ok(names)
}

// Appends the names of further variables.
fn push_names(
    names: &mut Vec<String>,
    alloc: Global,
    bytes: &[u8],
    more: &[TokenAfter],
) -> Result<(), AllocError>
    requires { Each IsName (map (text_of bytes.now) (map (λ a. a.token) more.now)) }
    ensures { OnOk result (map string_bytes names.new.items
        ≡ map string_bytes names.old.items ++ map (text_of bytes.now) (map (λ a. a.token) more.now)) }
{
    let mut more = more;
    while let Some((after, rest)) = more.split_first() {
        push_name(names, alloc, bytes, &after.token)?;
        more = rest;
    }
    Ok(())
}

// Appends the name of a variable.
fn push_name(
    names: &mut Vec<String>,
    alloc: Global,
    bytes: &[u8],
    name: &Token,
) -> Result<(), AllocError>
    requires { IsName (text_of bytes.now name.now) }
    ensures { OnOk result (map string_bytes names.new.items
        ≡ map string_bytes names.old.items ++ text_of bytes.now name.now ∷ []) }
{
    names.push(string_of(alloc, text(bytes, name))?)?;
    Ok(())
}

// A name as a string.
fn string_of(alloc: Global, name: &[u8]) -> Result<String, AllocError>
    requires { IsName name.now }
    ensures { IfOk result (λ s. string_bytes s ≡ name.now) }
{
    match String::from_utf8(Vec::from_slice(alloc, name)?) {
        Ok(string) => Ok(string),
        Err(_) => unreachable!(),
    }
}

/// Refuses names that are not all different.
pub(crate) fn different(alloc: Global, names: &[String]) -> Result<(), Stop>
    ensures different { OnOk result (spec.repeated (map string_bytes names.now) ≡ None) }
    ensures refused { IfErr result (λ e. (other : Outcome ModelRing) →
        Stops e (spec.unless_repeated (spec.repeated (map string_bytes names.now)) other)) }
{
    match repeated(names) {
        None => Ok(()),
        Some(name) => {
            let name_bytes = Items::from_slice(alloc, name.as_bytes())?;
            Err(Stop::Refused(Refusal::Taken(name_bytes)))
        }
    }
}

// Of the names that stand again behind themselves the first.
fn repeated(names: &[String]) -> Option<&String>
    ensures { MatchOption result (spec.repeated (map string_bytes names.now) ≡ None)
        (λ name. spec.repeated (map string_bytes names.now) ≡ Some (string_bytes name.now)) }
{
    let mut left = names;
    while let Some((name, rest)) = left.split_first() {
        if contains(rest, name.as_bytes()) {
            return Some(name);
        }
        left = rest;
    }
    None
}

// Whether this is one of the names.
fn contains(names: &[String], name: &[u8]) -> bool
    ensures { result ≡ list_any (λ other. bytes_eq name.now (string_bytes other)) names.now }
{
    names.iter().any(|other| name == other.as_bytes())
}

/// The same names, in memory of their own.
pub(crate) fn copy_names(alloc: Global, names: &[String]) -> Result<Vec<String>, AllocError>
    ensures { IfOk result (λ copies. map string_bytes copies.items ≡ map string_bytes names.now) }
{
    let mut copies = Vec::with_capacity(alloc, names.len())?;
    for name in names {
        copies.push(String::from_str(alloc, name.as_str())?)?;
    }
    Ok(copies)
}
