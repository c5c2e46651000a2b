// Sets of pairs of records below 1,024 as rows of bits, and their algebra: 1,024 rows of 16 words, so that bit p of the rows is the pair
// word p, from * 1024 + to. A square of a row is one of its words: 64 columns.
// Rows are slices and no type of their own, whose length each contract asks for: they are parts of lent work.
#![tactic(auto)]

mod entry;

ghost use Rattle.std.specs.Prelude.{◌≡◌, true, ◌++◌, ℕ, ◌/◌, ◌≤◌, ◌<◌, eqb, length, take, drop, get_or};
ghost use Rattle.book.specs.Causes.{max_records};
ghost use Rattle.k2.specs.Sizes.{rows_words};
ghost use Rattle.k2.specs.Bits.{digit, bit_at};
ghost use Rattle.k2.specs.PairSets.{Cells, IsSet, union, intersection, difference, transpose, product, diagonal};
ghost use Rattle.bits.specs.BitSets.{none};
ghost use Rattle.rows.specs.Rows.{flat};
ghost use Rattle.rows.specs.RowSets.{no_pairs, crossed_words, RowsOf, pairs_in};
ghost use Rattle.rows.specs.Steps.{Masked, row_at, Occupied, Masks, Common, served, below, with_row, Serving, Multiplying};

use entry::Entry;

// A row has as many columns as there may be records; and so many cells are there in all.
const COLUMNS: usize = book::MAX_RECORDS;

const CELLS: usize = COLUMNS * COLUMNS;

// The pairs of a that b lacks taken out of a.
pub fn intersect(a: &mut [u64], b: &[u64])
    requires { (length a.old ≡ rows_words) × (length b.now ≡ rows_words) }
    ensures { (x y : Cells) → bit_at a.old ≡ flat x → bit_at b.now ≡ flat y
        → bit_at a.new ≡ flat (intersection x y) }
{
    each_word(a, b, |v, w| v & w);
}

// The pairs of b taken out of a.
pub fn minus(a: &mut [u64], b: &[u64])
    requires { (length a.old ≡ rows_words) × (length b.now ≡ rows_words) }
    ensures { (x y : Cells) → bit_at a.old ≡ flat x → bit_at b.now ≡ flat y
        → bit_at a.new ≡ flat (difference x y) }
{
    each_word(a, b, |v, w| v & !w);
}

// Each word of a made anew of itself and of the word of b at its place.
fn each_word<F: Fn(u64, u64) -> u64>(a: &mut [u64], b: &[u64], made: F)
    requires { (length a.old ≡ length b.now) × F.IsAlwaysCallable made }
    ensures { (i : ℕ) → i < length a.old → F.post made (get_or a.old i 0) (get_or b.now i 0) (get_or a.new i 0) }
{
    for (i, w) in b.iter().enumerate() {
        a[i] = made(a[i], *w);
    }
}

// Rows that hold no pair.
pub fn clear(rows: &mut [u64])
    requires { length rows.old ≡ rows_words }
    ensures { bit_at rows.new ≡ flat no_pairs }
{
    bits::clear(rows);
}

// Each record of a set joined to itself; the set is lent as 1,024 bits.
pub fn set_diagonal(rows: &mut [u64], records: &[u64])
    requires { (length rows.old ≡ rows_words) × (length records.now ≡ 16) }
    ensures { (x : Cells) → bit_at rows.old ≡ flat x
        → bit_at rows.new ≡ flat (union x (diagonal (bit_at records.now))) }
{
    for i in 0..COLUMNS {
        if bits::bit(records, i) == 1 {
            bits::set_bit(rows, i * COLUMNS + i);
        }
    }
}

// Is a label in a set of labels?
pub fn has_label(labels: u32, label: u32) -> bool
    ensures { result ≡ eqb (digit labels label) 1 }
{
    label < 32 && (labels >> label) % 2 == 1
}

// The pairs of link words put in: of links whose label is in `forward` as they are, of those whose label is in `against` exchanged. A pair
// word is the word of a link of label 0.
pub fn put_letters(words: &[u32], forward: u32, against: u32, rows: &mut [u64])
    requires { length rows.old ≡ rows_words }
    ensures { (x : Cells) → bit_at rows.old ≡ flat x
        → bit_at rows.new ≡ flat (union x (crossed_words words.now forward against)) }
{
    for word in words {
        let label = links::label_of(*word);
        let p = links::pair_of(*word) as usize;
        if has_label(forward, label) {
            bits::set_bit(rows, p);
        }
        if has_label(against, label) {
            bits::set_bit(rows, p % COLUMNS * COLUMNS + p / COLUMNS);
        }
    }
}

// How many pairs the first n rows hold. Of the rows of a set below n they are the set's, ascending (RowLaws `pairs-in`).
pub fn count_pairs(rows: &[u64], n: usize) -> usize
    requires { n ≤ max_records }
    ensures { result ≡ length (pairs_in n rows.now) }
{
    bits::rank(rows, n * COLUMNS)
}

// Their words, ascending, as many as the list takes; the words past them are left.
pub fn write_pairs(rows: &[u64], n: usize, out: &mut [u32])
    requires { (n ≤ max_records) × (length rows.now ≡ rows_words) }
    ensures { out.new ≡ take (length out.old) (pairs_in n rows.now)
        ++ drop (length (pairs_in n rows.now)) out.old }
{
    let mut t = 0;
    for (q, word) in rows[..n * 16].iter().enumerate() {
        for p in bits::SetBits::of(*word) {
            if out.len() <= t {
                return;
            }
            out[t] = (q * 64 + p) as u32;
            t += 1;
        }
    }
}

// Are these the rows of a set of pairs below n?
pub fn within(rows: &[u64], n: usize) -> bool
    requires { (n ≤ max_records) × (length rows.now ≡ rows_words) }
    ensures { (result ≡ true → RowsOf n rows.now) × (RowsOf n rows.now → result ≡ true) }
{
    for i in 0..n {
        let end = i * COLUMNS + COLUMNS;
        if bits::next(rows, i * COLUMNS + n, end) < end {
            return false;
        }
    }
    bits::next(rows, n * COLUMNS, CELLS) == CELLS
}

// The words of a row that are not empty, as bits.
fn filled_words(row: &[u64]) -> u32
    requires { length row.now ≡ 16 }
    ensures { (result < 65536) × ((k : ℕ) → k < max_records → digit result (k / 64) ≡ 0 → bit_at row.now k ≡ 0) }
{
    let mut mask: u32 = 0;
    for (s, word) in row.iter().enumerate() {
        if *word != 0 {
            mask |= 1 << s;
        }
    }
    mask
}

// The squares of row i that are not empty, as bits.
pub fn squares(rows: &[u64], i: usize) -> u32
    requires { (length rows.now ≡ rows_words) × (i < max_records) }
    ensures { (result < 65536) × Masked (bit_at rows.now) i result }
{
    filled_words(&rows[i * 16..i * 16 + 16])
}

// The rows below n that are not empty, ascending. They are the front of the list that is lent.
fn occupied<'a>(rows: &[u64], n: usize, list: &'a mut [Entry]) -> &'a [Entry]
    requires { (n ≤ max_records) × (length rows.now ≡ rows_words) × (length list.old ≡ max_records) }
    ensures { (length result.now ≤ max_records)
        × Occupied (bit_at rows.now) n (row_at n (length result.now) result.now) (length result.now)
        × Masks (bit_at rows.now) (length result.now) result.now }
{
    let mut m = 0;
    for i in 0..n {
        let mask = squares(rows, i);
        if mask != 0 {
            list[m] = Entry {
                squares: mask as u16,
                row: i as u16,
            };
            m += 1;
        }
    }
    &list[..m]
}

// 1 if some middle record serves, that is, row i of a and row j of b have a column in common, else 0. The search goes over the squares, from the
// first to the last of those in common, and in each over the records of row i from the first of row j on, lowest first, each tried in row j; it is
// left at the first that serves. A square whose words have no bit in common is passed at once.
// Two loops by hand, left by a label: the scope names this form for "some middle record serves".
fn serves(a: &[u64], i: usize, b: &[u64], j: usize, common: u32) -> u64
    requires { Serving a.now i b.now j common }
    ensures { Common (bit_at a.now) (bit_at b.now) i j common
        → result ≡ served (bit_at a.now) (bit_at b.now) i j }
{
    let mut found: u64 = 0;
    let mut s = u32::trailing_zeros(common) as usize;
    'search: while common >> s != 0 {
        let row = a[i * 16 + s];
        let column = b[j * 16 + s];
        if row & column != 0 {
            let mut k = u64::trailing_zeros(column);
            let mut rest = row >> k;
            while rest != 0 {
                let passed = u64::trailing_zeros(rest);
                k += passed;
                if (column >> k) % 2 == 1 {
                    found = 1;
                    break 'search;
                }
                k += 1;
                rest = (rest >> passed) >> 1;
            }
        }
        s += 1;
    }
    found
}

// Row i of the product: of the columns of the second that the list names, those that serve. One whose squares are not among those of row i
// is passed at once.
fn product_row(a: &[u64], i: usize, mask: u32, columns: &[u64], list: &[Entry], row: &mut [u64])
    requires { Multiplying a.now i mask columns.now list.now row.old }
    ensures { (n : ℕ) → Masked (bit_at a.now) i mask
        → Occupied (bit_at columns.now) n (row_at n (length list.now) list.now) (length list.now)
        → Masks (bit_at columns.now) (length list.now) list.now → bit_at row.old ≡ none
        → bit_at row.new ≡ below n (served (bit_at a.now) (bit_at columns.now) i) }
{
    for entry in list {
        let common = mask & entry.squares as u32;
        if common != 0 {
            let j = entry.row as usize;
            if serves(a, i, columns, j, common) == 1 {
                bits::set_bit(row, j);
            }
        }
    }
}

// A row stored as row i.
fn store_row(row: &[u64], rows: &mut [u64], i: usize)
    requires { (length row.now ≡ 16) × (length rows.old ≡ rows_words) × (i < max_records) }
    ensures { bit_at rows.new ≡ with_row i (bit_at row.now) (bit_at rows.old) }
{
    rows[i * 16..i * 16 + 16].copy_from_slice(row);
}

// The product, left in a; the second operand is lent by its columns, transposed. A row of the product depends on that row of a alone.
pub fn compose(a: &mut [u64], columns: &[u64], n: usize)
    requires { (n ≤ max_records) × (length a.old ≡ rows_words) × (length columns.now ≡ rows_words) }
    ensures { (x y : Cells) → IsSet n x → IsSet n y → bit_at a.old ≡ flat x → bit_at columns.now ≡ flat (transpose y)
        → bit_at a.new ≡ flat (product n x y) }
{
    let mut entries = [Entry { squares: 0, row: 0 }; COLUMNS];
    let list = occupied(columns, n, &mut entries);
    for i in 0..n {
        let mask = squares(a, i);
        if mask != 0 {
            let mut row: [u64; 16] = [0; 16];
            product_row(a, i, mask, columns, list, &mut row);
            store_row(&row, a, i);
        }
    }
}
