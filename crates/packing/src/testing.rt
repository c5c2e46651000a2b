// Which words are a k2-tree: those that come back when what is read of them is packed again.
ghost use Rattle.std.specs.Prelude.{◌≡◌, true, ◌≤◌};
ghost use Rattle.book.specs.Causes.{max_records};
ghost use Rattle.k2.specs.Trees.{WellFormed};

use crate::loading::{Sense, load};
use crate::making::pack;

// Is it the tree of some set of pairs below n?
pub fn well_formed(tree: &[u64], n: usize) -> bool
    requires { n ≤ max_records }
    ensures { (result ≡ true → WellFormed n tree.now) × (WellFormed n tree.now → result ≡ true) }
{
    if tree.is_empty() {
        return true;
    }
    if k2::tree_unit(n) < tree.len() {
        return false;
    }
    let mut rows: [u64; k2::ROWS_WORDS] = [0; k2::ROWS_WORDS];
    load(tree, n, Sense::Plain, &mut rows);
    if !rows::within(&rows, n) {
        return false;
    }
    let mut again: [u64; 21847] = [0; 21847];
    let len = pack(&rows, n, &mut again);
    tree == &again[..len]
}
