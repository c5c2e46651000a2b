// The first relation of a part is closed here, in place, record by record. Each row is closed by a search over the rows as they are; the row of a record that
// is closed already stands for all that it leads to. A record whose row is empty counts as seen from the first, so that a search passes over such records in
// whole words.
// There are three parts of 1,024 marks, a bit each. Mark x says that row x is closed, mark SEEN + x that the search in depth has seen it, and mark
// 2 * SEEN + x that it is empty.
ghost use Rattle.std.specs.Prelude.{◌≡◌, ◌⊎◌, true, ℕ, ◌+◌, ◌*◌, ◌/◌, ◌≤◌, ◌<◌, max, eqb, length, get_or, IfSome};
ghost use Rattle.std.specs.Option.{unwrap_or};
ghost use Rattle.book.specs.Basics.{pick};
ghost use Rattle.book.specs.Causes.{max_records};
ghost use Rattle.k2.specs.Sizes.{rows_words};
ghost use Rattle.k2.specs.Bits.{digit, bit_at};
ghost use Rattle.k2.specs.PairSets.{Cells, IsSet, closure};
ghost use Rattle.bits.specs.BitSets.{put};
ghost use Rattle.rows.specs.Rows.{flat};
ghost use Rattle.rows.specs.Steps.{Masked};
ghost use Rattle.grid.specs.Grid.{Space, row_of, first_rows, first};
ghost use Rattle.grid.specs.Steps.{stack_places, Clean, Merged, Fresh, empty_marks, Filled, Started, RowClosed};
ghost use Rattle.grid.specs.Steps.{Looking, Marking};
ghost use Rattle.grid.specs.Closings.{Goes};

use crate::row::merge;
use crate::state::Closing;
use crate::words::{Ones, lowest};

// So many words a row has at most, and a part of the marks.
const ROW: usize = 16;

const SEEN: usize = 1024;

const MARK_WORDS: usize = 3 * ROW;

// Steps of the search in depth from one record at most: one down and one up for each record; and the places of its stack.
const STEPS: usize = 2048;

const STACK: usize = 2050;

// A column of a closed record in word c of a row, if one is left there; else the column found, if it is below n; else one that is left in the word.
fn found_or(found: usize, n: usize, left: u64, best: u64, c: usize) -> usize
    requires { (c < 16) × ((k : ℕ) → digit best k ≡ 1 → digit left k ≡ 1) }
    ensures { ((result ≡ found) × ((found < n) ⊎ (left ≡ 0))) ⊎ ((k : ℕ) × (k < 64) × (digit left k ≡ 1) × (result ≡ c * 64 + k)) }
{
    if best != 0 {
        return c * 64 + lowest(best);
    }
    if found < n {
        return found;
    }
    if left == 0 {
        return found;
    }
    c * 64 + lowest(left)
}

// A column below n of row x, with the mask, that is not seen, if there is one, where all from n on count as seen. That of a closed record, where there
// is one, all that it leads to being then seen at once, and of those one near column x. Nothing but speed rests on that choice.
fn fresh(
    cells: &[u64],
    mask: u16,
    n: usize,
    w: usize,
    x: usize,
    seen: &[u64],
    closed: &[u64],
) -> Option<usize>
    requires { Looking n w x cells.now seen.now closed.now }
    ensures fresh { Fresh n w (row_of cells.now (x * w) mask) (bit_at seen.now) (unwrap_or result n) }
    ensures below { IfSome result (λ z. z < n) }
{
    let b = x * w;
    let mut found = n;
    for c in Ones::of(mask as u64, w) {
        let left = cells[b + c] & !seen[c];
        let best = left & closed[c];
        found = found_or(found, n, left, best, c);
        if best != 0 && found < n && x < c * 64 + 64 {
            return Some(found);
        }
    }
    if found < n { Some(found) } else { None }
}

// The columns of the row at place b, with the mask, put into a set.
fn add_row(cells: &[u64], mask: u16, w: usize, b: usize, set: &mut [u64])
    requires { (w ≤ 16) × (b + w ≤ length cells.now) × (16 ≤ length set.old) }
    ensures { (y : ℕ) → y < w * 64 → bit_at set.new y ≡ max (bit_at set.old y) (row_of cells.now b mask y) }
{
    for c in Ones::of(mask as u64, w) {
        set[c] |= cells[b + c];
    }
}

// Record z is seen, and, if its row, with the mask, is whole, all that it leads to.
fn mark(cells: &[u64], mask: u16, w: usize, z: usize, whole: u64, seen: &mut [u64])
    requires { Marking w z cells.now seen.old }
    ensures { (y : ℕ) → y < w * 64 → bit_at seen.new y
        ≡ max (put z 1 (bit_at seen.old) y) (pick (eqb whole 1) (row_of cells.now (z * w) mask y) 0) }
{
    bits::set_bit(seen, z);
    if whole != 1 {
        return;
    }
    add_row(cells, mask, w, z * w, seen);
}

// Is the row at place b, with the mask, whole, and does it lead to x?
fn leads_back(cells: &[u64], mask: u16, b: usize, x: usize, whole: u64) -> bool
    requires { (x < max_records) × (b + x / 64 < length cells.now) }
    ensures { result ≡ true → (whole ≡ 1) × (row_of cells.now b mask x ≡ 1) }
{
    if whole != 1 {
        return false;
    }
    let c = x / 64;
    if (mask >> c) % 2 != 1 {
        return false;
    }
    (cells[b + c] >> (x % 64)) % 2 == 1
}

// Row z put into row x.
fn lead_on(cells: &mut [u64], masks: &mut [u16], n: usize, w: usize, x: usize, z: usize)
    requires { Space n w n (length cells.old) (length masks.old) × (x < n) × (z < n) }
    ensures { Merged w x (x * w) (first_rows w cells.old masks.old z)
        cells.old masks.old cells.new masks.new }
{
    if x == z {
        return;
    }
    merge(cells, masks, w, x, z);
}

// The records that are marked as empty.
fn empty_records(marks: &[u64]) -> [u64; ROW]
    requires { length marks.now ≡ 48 }
    ensures { (u : ℕ) → u < max_records → bit_at result u ≡ bit_at marks.now (empty_marks + u) }
{
    let mut records: [u64; ROW] = [0; ROW];
    for c in 0..ROW {
        records[c] = marks[2 * ROW + c];
    }
    records
}

// Row x closed, if the rows of the records that are closed are. A closed row that leads back to x, and that x leads to, is that of x.
fn close_row(cells: &mut [u64], masks: &mut [u16], n: usize, w: usize, x: usize, marks: &[u64])
    requires { Space n w n (length cells.old) (length masks.old) × (x < n) × (length marks.now ≡ 48) }
    ensures { RowClosed n w x (bit_at marks.now) cells.old masks.old cells.new masks.new }
{
    let mut seen = empty_records(marks);
    while let Some(z) = fresh(cells, masks[x], n, w, x, &seen, marks) {
        let whole = bits::bit(marks, z);
        lead_on(cells, masks, n, w, x, z);
        if leads_back(cells, masks[z], z * w, x, whole) {
            return;
        }
        mark(cells, masks[z], w, z, whole, &mut seen);
    }
}

// A column of the row at place b, with the mask, whose record is not marked as seen.
fn unseen(cells: &[u64], mask: u16, w: usize, b: usize, marks: &[u64]) -> Option<usize>
    requires { (w ≤ 16) × (b + w ≤ length cells.now) × (length marks.now ≡ 48) }
    ensures { IfSome result (λ z. z < max_records) }
{
    for c in Ones::of(mask as u64, w) {
        let left = cells[b + c] & !marks[ROW + c];
        if left != 0 {
            return Some(c * 64 + lowest(left));
        }
    }
    None
}

impl Closing<'_> {
    // Row x closed, unless it is.
    fn close_once(&mut self, x: usize)
        ensures goes { Goes self.old self.new }
        ensures closed { x < self.old.n → bit_at self.new.marks.now x ≡ 1 }
    {
        if self.n <= x {
            return;
        }
        let marks = &mut *self.marks;
        if bits::bit(marks, x) == 1 {
            return;
        }
        close_row(self.cells, self.masks, self.n, self.w, x, marks);
        bits::set_bit(marks, x);
    }

    // A step of the search in depth: a record that row x leads to and that is not seen yet, which then is; if there is none, row x is closed.
    fn deeper(&mut self, x: usize) -> Option<usize>
        ensures goes { Goes self.old self.new }
        ensures below { IfSome result (λ z. z < self.old.n) }
    {
        if self.n <= x {
            return None;
        }
        let mask = self.masks[x];
        let cells = &mut *self.cells;
        let marks = &mut *self.marks;
        if let Some(z) = unseen(cells, mask, self.w, x * self.w, marks) {
            if z < self.n {
                bits::set_bit(marks, SEEN + z);
                return Some(z);
            }
        }
        self.close_once(x);
        None
    }

    // A step from the record on top of the stack, of that depth. The depth after it.
    fn advance(&mut self, depth: usize) -> usize
        requires { (0 < depth) × (depth < stack_places) }
        ensures goes { Goes self.old self.new }
        ensures depth { result ≤ depth + 1 }
    {
        let x = self.stack[depth - 1] as usize;
        match self.deeper(x) {
            Some(z) => {
                self.stack[depth] = z as u16;
                depth + 1
            }
            None => depth - 1,
        }
    }

    // Steps from the one record on the stack, until none is left there.
    fn search_on(&mut self)
        ensures { Goes self.old self.new }
    {
        let mut depth = 1;
        for step in 0usize..STEPS {
            if depth == 0 {
                return;
            }
            depth = self.advance(depth);
        }
    }

    // The rows that row x leads to closed before it, in the order in which a search in depth leaves them, so that most of what they lead to is found
    // closed. Nothing but speed rests on that order.
    fn close_from(&mut self, x: usize)
        requires { x < self.old.n }
        ensures { Goes self.old self.new }
    {
        let marks = &mut *self.marks;
        if bits::bit(marks, SEEN + x) == 1 {
            return;
        }
        bits::set_bit(marks, SEEN + x);
        self.stack[0] = x as u16;
        self.search_on();
    }

    // Row x closed, and before it the rows that it leads to.
    fn close_record(&mut self, x: usize)
        requires { x < self.old.n }
        ensures goes { Goes self.old self.new }
        ensures closed { bit_at self.new.marks.now x ≡ 1 }
    {
        self.close_from(x);
        self.close_once(x);
    }
}

// The records below n whose rows are not empty.
fn occupied(masks: &[u16], n: usize) -> [u64; ROW]
    requires { (n ≤ max_records) × (n ≤ length masks.now) }
    ensures { Filled n masks.now (bit_at result) }
{
    let mut records: [u64; ROW] = [0; ROW];
    for x in 0..n {
        if masks[x] != 0 {
            bits::set_bit(&mut records, x);
        }
    }
    records
}

// The marks to begin with: no row is closed, and of the records that are not filled each counts as seen, and as empty.
fn start_marks(filled: &[u64]) -> [u64; MARK_WORDS]
    requires { length filled.now ≡ 16 }
    ensures { Started max_records (bit_at filled.now) (bit_at result) }
{
    let mut marks: [u64; MARK_WORDS] = [0; MARK_WORDS];
    for c in 0..ROW {
        let rest = !filled[c];
        marks[ROW + c] = rest;
        marks[2 * ROW + c] = rest;
    }
    marks
}

// One or more steps of the first relation. Clean words stay so.
fn close_all(cells: &mut [u64], masks: &mut [u16], n: usize, w: usize)
    requires { Space n w n (length cells.old) (length masks.old) }
    ensures { (first n w cells.new masks.new ≡ closure n (first n w cells.old masks.old))
        × (Clean n w cells.old masks.old → Clean n w cells.new masks.new) }
{
    let filled = occupied(masks, n);
    let mut marks = start_marks(&filled);
    let mut stack: [u16; STACK] = [0; STACK];
    let mut closing = Closing {
        cells,
        masks,
        n,
        w,
        marks: &mut marks,
        stack: &mut stack,
    };
    for c in 0..ROW {
        for k in Ones::of(filled[c], 64) {
            closing.close_record(c * 64 + k);
        }
    }
}

// One or more steps of the first relation.
pub fn close(cells: &mut [u64], masks: &mut [u16], n: usize, w: usize)
    requires { Space n w n (length cells.old) (length masks.old) }
    ensures { first n w cells.new masks.new ≡ closure n (first n w cells.old masks.old) }
{
    close_all(cells, masks, n, w);
}

// The masks of rows of 1,024 bits.
fn mask_rows(rows: &[u64], n: usize, masks: &mut [u16])
    requires { (n ≤ max_records) × (length rows.now ≡ rows_words) × (n ≤ length masks.old) }
    ensures { (x : ℕ) → x < n → Masked (bit_at rows.now) x (get_or masks.new x 0) }
{
    for row in 0..n {
        masks[row] = rows::squares(rows, row) as u16;
    }
}

// One or more steps of rows of 1,024 bits, in place.
pub fn close_rows(rows: &mut [u64], n: usize)
    requires { (n ≤ max_records) × (length rows.old ≡ rows_words) }
    ensures { (x : Cells) → IsSet n x → bit_at rows.old ≡ flat x → bit_at rows.new ≡ flat (closure n x) }
{
    let mut masks: [u16; book::MAX_RECORDS] = [0; book::MAX_RECORDS];
    mask_rows(rows, n, &mut masks);
    close_all(rows, &mut masks, n, 16);
}
