// The pairs of the first relation of a part are listed here, row by row and word by word.
ghost use Rattle.std.specs.Prelude.{◌≡◌, ◌++◌, ◌+◌, ◌*◌, ◌≤◌, ◌<◌, ◌^◌, length, take, drop};
ghost use Rattle.book.specs.Causes.{max_records};
ghost use Rattle.k2.specs.Bits.{digit};
ghost use Rattle.k2.specs.PairSets.{listed};
ghost use Rattle.grid.specs.Grid.{Space, row_of, first};
ghost use Rattle.answers.specs.Listing.{Grown};
ghost use Rattle.grid.specs.Steps.{cut_row, columns};

use crate::PAIR_UNIT;
use crate::words::{Ones, cut};

// The bits of a word, each as `at` + its place, written from place t on. The place after them.
fn list_word(word: u64, at: usize, out: &mut [u32], t: usize) -> usize
    requires { (at + 64 < 2 ^ 32) × (t ≤ 2 * (max_records * max_records)) }
    ensures { (result ≤ t + 64) × Grown t result (columns (digit word) at 64) out.old out.new }
{
    let mut s = t;
    for k in Ones::of(word, 64) {
        answers::put_u32(out, s, (at + k) as u32);
        s += 1;
    }
    s
}

// The pairs of row x with the mask, in the columns below n, written from place t on. The place after them.
fn list_row(
    cells: &[u64],
    mask: u16,
    n: usize,
    w: usize,
    x: usize,
    out: &mut [u32],
    t: usize,
) -> usize
    requires { Space n w n (length cells.now) n × (x < n) × (t ≤ max_records * max_records) }
    ensures { (result ≤ t + max_records)
        × Grown t result (columns (cut_row n (row_of cells.now (x * w) mask)) (x * max_records) n) out.old out.new }
{
    let b = x * w;
    let mut s = t;
    for c in Ones::of(mask as u64, w) {
        let word = cut(cells[b + c], c, n);
        s = list_word(word, x * PAIR_UNIT + c * 64, out, s);
    }
    s
}

// How many pairs the first relation has; their words, ascending, are written to the list as far as it takes them, and the words past them are left.
pub fn list(cells: &[u64], masks: &[u16], n: usize, w: usize, out: &mut [u32]) -> usize
    requires { Space n w n (length cells.now) (length masks.now) }
    ensures { (result ≡ length (listed n (first n w cells.now masks.now)))
        × (out.new ≡ take (length out.old) (listed n (first n w cells.now masks.now))
        ++ drop (length (listed n (first n w cells.now masks.now))) out.old) }
{
    let mut t = 0;
    for x in 0..n {
        t = list_row(cells, masks[x], n, w, x, out, t);
    }
    t
}
