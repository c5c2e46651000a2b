// The relation of an expression, left at the front of the work, and what is read of it there.
ghost use Rattle.std.specs.Prelude.{◌≡◌, List, ℕ, ◌<◌, ◌≤◌, length, get_or};
ghost use Rattle.book.specs.Basics.{In};
ghost use Rattle.book.specs.Causes.{max_records};
ghost use Rattle.k2.specs.PairSets.{listed};
ghost use Rattle.k2.specs.Bits.{bit_at};
ghost use Rattle.bits.specs.BitSets.{Next as NextBit};
ghost use Rattle.rows.specs.Rows.{flat};
ghost use Rattle.paths.specs.Verdicts.{verdict};
ghost use Rattle.query.specs.Asking.{max_pairs, Relates};
ghost use Rattle.query.specs.Leaving.{Leaves};
ghost use Rattle.answers.specs.declared.Counted.TheVariants.{Count};
ghost use Rattle.rowpairs.specs.Evaluation.{Held, relation_in, Column, Known, Relating, RelatingOver, Members, JoinsSome, Joining};

use crate::Related;
use crate::running::leave_value;
use answers::Counted;
use register::Register;

// The words of a relation's rows: 1,024 rows of 1,024 bits.
const ROW_WORDS: usize = 16384;

// The words of a row of 1,024 bits.
const RECORD_WORDS: usize = 16;

// The bits of a word.
const WORD_BITS: usize = 64;

// The number after every pair word.
const PAIR_WORDS: usize = book::MAX_RECORDS * book::MAX_RECORDS;

// The relation of a text, of what was read of a register, left at the front of the work, with its masks.
fn leave(
    n: usize,
    links: &[u32],
    marks: &[u32],
    text: &[u8],
    work: &mut [u64],
    left: &mut [u16],
) -> Counted
    requires { (n ≤ max_records) × (n ≤ length marks.now) × (n ≤ length left.old) }
    ensures { Leaves (λ b. Known b n links.now marks.now)
        (verdict text.now) (length work.old) (relation_in work.new left.new) result
        × ((k : ℕ) → result ≡ Count k → (k ≡ n) × Held k (length work.old)) }
{
    let reading = reader::read(text);
    let read = reading.answer;
    let code = reading.code;
    match read {
        reader::Answer::Refused(k) => Counted::Refused(k as u32),
        reader::Answer::Accepted(len) => {
            if work.len() < query::pairs_work(n) {
                return Counted::Refused(book::SHORT_WORK);
            }
            leave_value(n, links, marks, &code[..len], work, left);
            Counted::Count(n)
        }
    }
}

// The relation of an expression, of what was read of a register, left at the front of the work. The work is that of trees.
pub fn relate_over(marks: &[u32], links: &[u32], text: &[u8], work: &mut [u64]) -> Related
    requires { length marks.now ≤ max_records }
    ensures { RelatingOver (length marks.now) links.now marks.now
        (verdict text.now) (length work.old) work.new result }
{
    let mut masks: [u16; book::MAX_RECORDS] = [0; book::MAX_RECORDS];
    let answer = leave(marks.len(), links, marks, text, work, &mut masks);
    Related { answer, masks }
}

// The same of a register.
pub fn relate(register: Register, text: &[u8], work: &mut [u64]) -> Related
    ensures { Relating register (verdict text.now) (length work.old) work.new result }
{
    let n = register.size();
    let links = register.links();
    let count = links.count;
    let array = links.words;
    let marks = register.marks();
    relate_over(&marks[..n], &array[..count], text, work)
}

// Records as a row of bits.
pub fn record_row(records: &[u16]) -> [u64; RECORD_WORDS]
    requires { (y : ℕ) → In y records.now → y < max_records }
    ensures { (length result ≡ 16) × Members records.now (bit_at result) }
{
    let mut row: [u64; RECORD_WORDS] = [0; RECORD_WORDS];
    for i in 0..records.len() {
        bits::set_bit(&mut row, records[i] as usize);
    }
    row
}

// Whether a relation of n records joins record x to some record of a row of bits.
pub fn joins_some(cells: &[u64], masks: &[u16], n: usize, x: usize, row: &[u64]) -> bool
    requires { Joining n cells.now masks.now x row.now }
    ensures { (l : List ℕ) → Members l (bit_at row.now) → ((y : ℕ) → In y l → y < n)
        → JoinsSome (relation_in cells.now masks.now n x) l result }
{
    let w = query::row_width(n);
    grid::meets(cells, masks[x], x * w, w, row)
}

// The first column of row x from y on that a relation of n records has, by the row's mask; n if there is none.
fn next_column(cells: &[u64], mask: u16, n: usize, x: usize, y: usize) -> usize
    requires { (n ≤ max_records) × (x < n) × (y < max_records) }
    ensures { (ms : List ℕ) → get_or ms x 0 ≡ mask → Column (relation_in cells.now ms n x) y n result }
{
    if mask == 0 {
        return n;
    }
    let row = x * query::row_width(n) * WORD_BITS;
    let mut from = y;
    while from < n {
        let word = from / WORD_BITS;
        let end = word * WORD_BITS + WORD_BITS;
        if (mask >> word) % 2 == 1 {
            let place = bits::next(cells, row + from, row + end);
            if place < row + n {
                if place < row + end {
                    return place - row;
                }
            }
        }
        from = end;
    }
    n
}

// The first pair word from `from` on that a relation of n records has; the number after every pair word if there is none.
pub fn next_pair(cells: &[u64], masks: &[u16], n: usize, from: usize) -> usize
    requires { (n ≤ max_records) × (n ≤ length masks.now) × (from ≤ max_pairs) }
    ensures { NextBit (flat (relation_in cells.now masks.now n)) from max_pairs result }
{
    let mut p = from;
    while p < PAIR_WORDS {
        let x = p / book::MAX_RECORDS;
        if n <= x {
            return PAIR_WORDS;
        }
        let y = next_column(cells, masks[x], n, x, p % book::MAX_RECORDS);
        if y < n {
            return x * book::MAX_RECORDS + y;
        }
        p = x * book::MAX_RECORDS + book::MAX_RECORDS;
    }
    PAIR_WORDS
}

// How many pairs a relation of n records has.
pub fn count_pairs(cells: &[u64], masks: &[u16], n: usize) -> usize
    requires { Held n (length cells.now) × (n ≤ length masks.now) }
    ensures { result ≡ length (listed n (relation_in cells.now masks.now n)) }
{
    grid::count_pairs(cells, masks, n, query::row_width(n))
}

// The relation of an expression as rows of bits: bit from * 1024 + to of the first 16,384 words is 1 if the pair has a chain. The number of pairs is told.
// The work is that of trees.
pub fn relation(register: Register, text: &[u8], work: &mut [u64], rows: &mut [u64]) -> Counted
    ensures { Relates register text.now (length work.old) rows.old rows.new result }
{
    let related = relate(register, text, work);
    let answer = related.answer;
    let masks = related.masks;
    match answer {
        Counted::Refused(k) => Counted::Refused(k),
        Counted::Count(n) => {
            if rows.len() < ROW_WORDS {
                return Counted::Refused(book::SHORT_WORK);
            }
            grid::spread(work, &masks, n, query::row_width(n), &mut rows[..ROW_WORDS]);
            Counted::Count(count_pairs(work, &masks, n))
        }
    }
}
