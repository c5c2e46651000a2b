// Pair questions by rows of bits: an expression's code is run on a stack of relations, which lie one after another in the lent work, each as n rows
// of bits, 64 columns to a word, with a mask of each row's words in use (crate `grid`). running.rt runs a code, listing.rt lists the pairs of what is left,
// leaving.rt leaves the relation where it was made, for those who read it there, and spreads it to rows of 1,024 bits.
#![tactic(auto)]

mod leaving;
mod listing;
mod running;

use answers::Counted;
pub use leaving::{count_pairs, joins_some, next_pair, record_row, relate, relate_over, relation};
pub use listing::{pairs, pairs_by_rows, pairs_over, pairs_over_as_trees};

// How many labels there are; of a label, that there is none.
const LABELS: u8 = book::LABELS as u8;

// A relation left at the front of the work: on how many records, or why there is none; and its masks.
#[derive(Drop)]
pub struct Related {
    pub answer: Counted,
    pub masks: [u16; book::MAX_RECORDS],
}
