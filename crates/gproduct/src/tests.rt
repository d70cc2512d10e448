//! Tests on algebras in three variables.

mod algebras;
mod keeping;
mod products;
mod table;
