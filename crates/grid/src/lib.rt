// Relations on n records as rows of bits in lent work, and their algebra: n rows of w words, one after another, and beside each row a mask of its
// words in use. A word that is not in its row's mask counts as empty, whatever it holds, so that nothing is ever cleared. An operation is lent the
// part of the work that begins with its left operand, and may use what stands after its operands.
//
// words.rt has the bits of one word, row.rt one row, putting.rt pairs put into a relation, algebra.rt union, product and transposition, closing.rt the
// closure over the state that state.rt has, listing.rt the list, counting.rt how many pairs there are, spreading.rt the relation as rows of 1,024 bits.
#![tactic(auto)]

mod algebra;
mod closing;
mod counting;
mod listing;
mod putting;
mod row;
mod spreading;
mod state;
mod words;

pub use algebra::{compose, transpose, unite};
pub use closing::{close, close_rows};
pub use counting::count_pairs;
pub use listing::list;
pub use putting::{put_diagonal, put_letters, start};
pub use row::meets;
pub use spreading::spread;

// A pair word is from times this, and to.
const PAIR_UNIT: usize = book::MAX_RECORDS;
