// This crate works on k2-trees that lie in parts of the lent work. operations.rt has the operations on operands that lie there: trees, with the links of
// their letters beside them. listing.rt lists an answer. calls.rt has the calls on lent trees, with their refusals.
// D, the words of a full tree, and the sense in which a tree is read are handed on from the crates below.
#![tactic(auto)]

mod calls;
mod listing;
mod operations;

pub use calls::{
    closure, difference, intersection, list, make, product, sense_of, transpose, union,
};
pub use k2::tree_unit;
pub use operations::{Operand, Operation, Term, inverted, no_operand, operate, outcome_rows};
pub use packing::Sense;
