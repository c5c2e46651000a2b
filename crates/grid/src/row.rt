// These functions work on one row: they put a word or another row into it, and find a column that another row has too. Of rows of w words, word c
// of row t stands at place t * w + c.
ghost use Rattle.std.specs.Prelude.{◌≢◌, ◌+◌, ◌*◌, ◌≤◌, ◌<◌, length};
ghost use Rattle.k2.specs.Bits.{bit_at};
ghost use Rattle.bits.specs.BitSets.{both};
ghost use Rattle.grid.specs.Grid.{row_of, first_rows};
ghost use Rattle.grid.specs.Steps.{word_at, Merged, Meets, RowAt};

use crate::words::{Ones, join};

// A word put into word c of row t, of w words.
pub fn put(cells: &mut [u64], masks: &mut [u16], w: usize, t: usize, c: usize, v: u64)
    requires { RowAt w t cells.old masks.old × (c < w) }
    ensures { Merged w t (t * w) (word_at c v) cells.old masks.old cells.new masks.new }
{
    let mask = masks[t];
    let p = t * w + c;
    cells[p] = join(mask, c, cells[p], v);
    masks[t] = mask | (1 << c);
}

// Row r put into row t, another of w words.
pub fn merge(cells: &mut [u64], masks: &mut [u16], w: usize, t: usize, r: usize)
    requires { RowAt w t cells.old masks.old × RowAt w r cells.old masks.old }
    ensures { t ≢ r → Merged w t (t * w) (first_rows w cells.old masks.old r) cells.old masks.old cells.new masks.new }
{
    let mask = masks[t];
    let source = masks[r];
    let b = t * w;
    let f = r * w;
    for c in Ones::of(source as u64, w) {
        cells[b + c] = join(mask, c, cells[b + c], cells[f + c]);
    }
    masks[t] = mask | source;
}

// Whether some column of a row is in another, whose words are all in use.
pub fn meets(cells: &[u64], mask: u16, b: usize, w: usize, row: &[u64]) -> bool
    requires { (w ≤ 16) × (b + w ≤ length cells.now) × (w ≤ length row.now) }
    ensures { Meets (both (row_of cells.now b mask) (bit_at row.now)) (w * 64) result }
{
    for c in Ones::of(mask as u64, w) {
        if cells[b + c] & row[c] != 0 {
            return true;
        }
    }
    false
}
