// The first relation of a part is spread here to rows of 1,024 bits, as crate `rows` has them.
ghost use Rattle.std.specs.Prelude.{◌≡◌, ◌*◌, length};
ghost use Rattle.k2.specs.Sizes.{rows_words};
ghost use Rattle.k2.specs.Bits.{bit_at};
ghost use Rattle.rows.specs.Rows.{flat};
ghost use Rattle.grid.specs.Grid.{Space, row_of, first};
ghost use Rattle.grid.specs.Steps.{cut_row, Spread, Spreading};

use crate::words::{Ones, cut};

// Row x with the mask, in the columns below n, written as row x of the rows, which is empty.
fn spread_row(cells: &[u64], mask: u16, n: usize, w: usize, x: usize, rows: &mut [u64])
    requires { Spreading n w x cells.now rows.old }
    ensures { Spread x (cut_row n (row_of cells.now (x * w) mask)) 16 rows.old rows.new }
{
    let b = x * w;
    let to = x * 16;
    for c in Ones::of(mask as u64, w) {
        rows[to + c] = cut(cells[b + c], c, n);
    }
}

// The first relation as 1,024 rows of 16 words.
pub fn spread(cells: &[u64], masks: &[u16], n: usize, w: usize, rows: &mut [u64])
    requires { Space n w n (length cells.now) (length masks.now) × (length rows.old ≡ rows_words) }
    ensures { bit_at rows.new ≡ flat (first n w cells.now masks.now) }
{
    rows::clear(rows);
    for x in 0..n {
        spread_row(cells, masks[x], n, w, x, rows);
    }
}
