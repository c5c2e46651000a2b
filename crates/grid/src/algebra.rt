// Union, product and transposition leave their result in the first relation of the part. The second is the right operand, or scratch.
ghost use Rattle.std.specs.Prelude.{◌≡◌, ℕ, ◌+◌, ◌*◌, ◌≤◌, ◌<◌, length, get_or};
ghost use Rattle.book.specs.Causes.{max_records};
ghost use Rattle.k2.specs.PairSets.{union, transpose, product, most};
ghost use Rattle.grid.specs.Grid.{Space, first_rows, second_rows, first, second};
ghost use Rattle.grid.specs.Steps.{linked, only_row, Merged, Replaced, Turned};

use crate::row::{merge, put};
use crate::words::{Ones, cut};

// The second relation put into the first.
pub fn unite(cells: &mut [u64], masks: &mut [u16], n: usize, w: usize)
    requires { Space n w (n + n) (length cells.old) (length masks.old) }
    ensures { first n w cells.new masks.new
        ≡ union (first n w cells.old masks.old) (second n w cells.old masks.old) }
{
    for x in 0..n {
        merge(cells, masks, w, x, n + x);
    }
}

// Row x of the product of the first two relations, put into the row after them.
fn product_row(cells: &mut [u64], masks: &mut [u16], n: usize, w: usize, x: usize)
    requires { Space n w (n + n + 1) (length cells.old) (length masks.old) × (x < n) }
    ensures { Merged w (n + n) (n * w + n * w) (λ y. most n (linked n w cells.old masks.old x y))
        cells.old masks.old cells.new masks.new }
{
    let b = x * w;
    let mask = masks[x];
    for c in Ones::of(mask as u64, w) {
        let word = cut(cells[b + c], c, n);
        for k in Ones::of(word, 64) {
            let z = c * 64 + k;
            merge(cells, masks, w, n + n, n + z);
        }
    }
}

// Row x of the first relation replaced by that of the product.
fn compose_row(cells: &mut [u64], masks: &mut [u16], n: usize, w: usize, x: usize)
    requires { Space n w (n + n + 1) (length cells.old) (length masks.old) × (x < n) }
    ensures { Replaced n w x (x * w) (λ y. most n (linked n w cells.old masks.old x y))
        cells.old masks.old cells.new masks.new }
{
    masks[n + n] = 0;
    product_row(cells, masks, n, w, x);
    masks[x] = 0;
    merge(cells, masks, w, x, n + n);
}

// The product of the first two relations, left in the first. A row of the product depends on that row of the first alone. The row and the mask
// after the two relations are used.
pub fn compose(cells: &mut [u64], masks: &mut [u16], n: usize, w: usize)
    requires { Space n w (n + n + 1) (length cells.old) (length masks.old) }
    ensures { first n w cells.new masks.new
        ≡ product n (first n w cells.old masks.old) (second n w cells.old masks.old) }
{
    for x in 0..n {
        if masks[x] != 0 {
            compose_row(cells, masks, n, w, x);
        }
    }
}

// The second relation made empty.
fn start_second(masks: &mut [u16], n: usize)
    requires { (n ≤ max_records) × (n + n ≤ length masks.old) }
    ensures { ((k : ℕ) → k < n → get_or masks.new k 0 ≡ get_or masks.old k 0)
        × ((k : ℕ) → k < n → get_or masks.new (n + k) 0 ≡ 0) }
{
    for x in 0..n {
        masks[n + x] = 0;
    }
}

// The pairs of row x of the first relation put into the second, exchanged.
fn turn_row(cells: &mut [u64], masks: &mut [u16], n: usize, w: usize, x: usize)
    requires { Space n w (n + n) (length cells.old) (length masks.old) × (x < n) }
    ensures { Turned n w (only_row x n (first_rows w cells.old masks.old))
        cells.old masks.old cells.new masks.new }
{
    let b = x * w;
    let mask = masks[x];
    for c in Ones::of(mask as u64, w) {
        let word = cut(cells[b + c], c, n);
        for k in Ones::of(word, 64) {
            let y = c * 64 + k;
            put(cells, masks, w, n + y, x / 64, 1 << (x % 64));
        }
    }
}

// Row x of the first relation replaced by that of the second.
fn take_row(cells: &mut [u64], masks: &mut [u16], n: usize, w: usize, x: usize)
    requires { Space n w (n + n) (length cells.old) (length masks.old) × (x < n) }
    ensures { Replaced n w x (x * w) (second_rows n w cells.old masks.old x)
        cells.old masks.old cells.new masks.new }
{
    masks[x] = 0;
    merge(cells, masks, w, x, n + x);
}

// The second relation taken over into the first.
fn take_second(cells: &mut [u64], masks: &mut [u16], n: usize, w: usize)
    requires { Space n w (n + n) (length cells.old) (length masks.old) }
    ensures { first n w cells.new masks.new ≡ second n w cells.old masks.old }
{
    for x in 0..n {
        take_row(cells, masks, n, w, x);
    }
}

// Each pair of the first relation exchanged. The rows and the masks of the second are used.
pub fn transpose(cells: &mut [u64], masks: &mut [u16], n: usize, w: usize)
    requires { Space n w (n + n) (length cells.old) (length masks.old) }
    ensures { first n w cells.new masks.new ≡ transpose (first n w cells.old masks.old) }
{
    start_second(masks, n);
    for x in 0..n {
        turn_row(cells, masks, n, w, x);
    }
    take_second(cells, masks, n, w);
}
