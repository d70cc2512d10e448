//! The trees of scripts.
#![tactic(auto)]

mod expressions;
pub mod laws;
mod levels;
mod parsing;
mod parts;
mod reading;
mod statements;
#[cfg(test)]
mod tests;
mod tree;
mod word;

pub use parsing::{SyntaxFault, parse};
pub use tree::{
    Added, Base, Expr, ExprAfter, ExprList, ExprPair, Factor, Function, FunctionName, Index, Item,
    ItemAfter, ItemList, Order, Power, Scaled, Script, Side, Statement, Term, TokenAfter,
    TokenGroup, TokenList, Value, Values, Vars,
};
