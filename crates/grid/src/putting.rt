// Pairs are put into the first relation of a part here: those of links, by their labels, and each record in use joined to itself.
ghost use Rattle.std.specs.Prelude.{◌≡◌, List, [], ◌∷◌, ℕ, ◌≤◌, length};
ghost use Rattle.k2.specs.Bits.{bit_at};
ghost use Rattle.k2.specs.PairSets.{union, diagonal};
ghost use Rattle.rows.specs.RowSets.{no_pairs, crossed_words};
ghost use Rattle.grid.specs.Grid.{Space, within, first};
ghost use Rattle.grid.specs.Steps.{one_pair};

use crate::PAIR_UNIT;
use crate::row::put;

// The first relation made empty.
pub fn start(masks: &mut [u16], n: usize)
    requires { n ≤ length masks.old }
    ensures { (w : ℕ) (ws : List ℕ) → first n w ws masks.new ≡ no_pairs }
{
    for x in 0..n {
        masks[x] = 0;
    }
}

// The pair (x, y) put into the first relation, if both records are below n.
fn put_pair(cells: &mut [u64], masks: &mut [u16], n: usize, w: usize, x: usize, y: usize)
    requires { Space n w n (length cells.old) (length masks.old) }
    ensures { first n w cells.new masks.new
        ≡ union (first n w cells.old masks.old) (within n (one_pair x y)) }
{
    if n <= x {
        return;
    }
    if n <= y {
        return;
    }
    put(cells, masks, w, x, y / 64, 1 << (y % 64));
}

// Each record below n that is in use joined to itself.
pub fn put_diagonal(used: &[u64], cells: &mut [u64], masks: &mut [u16], n: usize, w: usize)
    requires { Space n w n (length cells.old) (length masks.old) }
    ensures { first n w cells.new masks.new
        ≡ union (first n w cells.old masks.old) (within n (diagonal (bit_at used.now))) }
{
    for x in 0..n {
        if bits::bit(used, x) == 1 {
            put_pair(cells, masks, n, w, x, x);
        }
    }
}

// The pair of one link's word put in, as `put_letters` does.
fn put_word(
    word: u32,
    forward: u32,
    against: u32,
    cells: &mut [u64],
    masks: &mut [u16],
    n: usize,
    w: usize,
)
    requires { Space n w n (length cells.old) (length masks.old) }
    ensures { first n w cells.new masks.new
        ≡ union (first n w cells.old masks.old) (within n (crossed_words (word ∷ []) forward against)) }
{
    let label = links::label_of(word);
    let p = links::pair_of(word) as usize;
    if rows::has_label(forward, label) {
        put_pair(cells, masks, n, w, p / PAIR_UNIT, p % PAIR_UNIT);
    }
    if rows::has_label(against, label) {
        put_pair(cells, masks, n, w, p % PAIR_UNIT, p / PAIR_UNIT);
    }
}

// The pairs of link words put into the first relation, if both records are below n: of links whose label is in `forward` as they are, of those whose
// label is in `against` exchanged.
pub fn put_letters(
    words: &[u32],
    forward: u32,
    against: u32,
    cells: &mut [u64],
    masks: &mut [u16],
    n: usize,
    w: usize,
)
    requires { Space n w n (length cells.old) (length masks.old) }
    ensures { first n w cells.new masks.new
        ≡ union (first n w cells.old masks.old) (within n (crossed_words words.now forward against)) }
{
    for i in 0..words.len() {
        put_word(words[i], forward, against, cells, masks, n, w);
    }
}
