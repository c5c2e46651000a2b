// How many pairs the first relation of a part has, by the ones of its words.
ghost use Rattle.std.specs.Prelude.{◌≡◌, ◌*◌, ◌≤◌, ◌<◌, length};
ghost use Rattle.book.specs.Causes.{max_records};
ghost use Rattle.k2.specs.PairSets.{listed};
ghost use Rattle.grid.specs.Grid.{Space, row_of, first};
ghost use Rattle.grid.specs.Steps.{cut_row, columns};

use crate::words::{Ones, count, cut};

// How many pairs row x with the mask has, in the columns below n.
fn count_row(cells: &[u64], mask: u16, n: usize, w: usize, x: usize) -> usize
    requires { Space n w n (length cells.now) n × (x < n) }
    ensures { (result ≤ max_records) × (result ≡ length (columns (cut_row n (row_of cells.now (x * w) mask)) (x * max_records) n)) }
{
    let b = x * w;
    let mut s = 0;
    for c in Ones::of(mask as u64, w) {
        s += count(cut(cells[b + c], c, n));
    }
    s
}

// How many pairs the first relation has.
pub fn count_pairs(cells: &[u64], masks: &[u16], n: usize, w: usize) -> usize
    requires { Space n w n (length cells.now) (length masks.now) }
    ensures { result ≡ length (listed n (first n w cells.now masks.now)) }
{
    let mut t = 0;
    for x in 0..n {
        t += count_row(cells, masks[x], n, w, x);
    }
    t
}
