// A code run on a stack of relations, whose value is left as the first.
ghost use Rattle.std.specs.Prelude.{◌≡◌, List, ◌⊎◌, ℕ, suc, ◌+◌, ◌-◌, ◌*◌, ◌<◌, ◌≤◌, length, get_or, true};
ghost use Rattle.book.specs.Book.{Book};
ghost use Rattle.book.specs.Causes.{max_records};
ghost use Rattle.k2.specs.PairSets.{union, diagonal};
ghost use Rattle.paths.specs.Expressions.{Expr};
ghost use Rattle.paths.specs.Chains.{asked};
ghost use Rattle.paths.specs.Relations.{crossed_by};
ghost use Rattle.paths.specs.Questions.{rows_work};
ghost use Rattle.reader.specs.declared.items.Item.TheVariants.{Inverse};
ghost use Rattle.reader.specs.Code.{item_of};
ghost use Rattle.reader.specs.Letters.{letters_in};
ghost use Rattle.reader.specs.Running.{operands};
ghost use Rattle.grid.specs.Grid.{Space, within, first};
ghost use Rattle.query.specs.Evaluation.{most_waiting, Ready, Coded, used_below, Lettered};
ghost use Rattle.rowpairs.specs.Labels.{every_if};
ghost use Rattle.rowpairs.specs.Evaluation.{Lent, LentFor, Runnable, Enough, Operates, Goes, Reading, ValueFirst};

use crate::LABELS;
use reader::Item;

// So many relations wait at once at the most.
const WAITING: usize = 19;

// The words of the relations of 32 records, 32 of them: more than any question of fewer records needs.
const FEW_WORDS: usize = 1024;

// The masks of 20 relations of 1,024 rows, and one more: 19 that wait, one as scratch, and a row of a product.
const MASKS: usize = 20481;

// The masks of four relations of 1,024 rows, and one more: enough for a code of three numbers, or for few records.
const FEW_MASKS: usize = 4097;

// The set of all 26 labels.
const EVERY_LABEL: u32 = 67108863;

// An item of the code, and how many of its numbers it was read from.
#[derive(Drop)]
struct Next {
    item: Item,
    used: usize,
}

// Every label if the set has this one, else none.
fn every_if(set: u32, label: u8) -> u32
    requires { label < 26 }
    ensures { result ≡ every_if set label }
{
    if (set >> label) % 2 == 1 {
        return EVERY_LABEL;
    }
    0
}

// The links of letters put into the first relation: those of the labels of the first set crossed forward, those of the second against their sense.
fn put_letters(
    links: &[u32],
    forward: u32,
    against: u32,
    cells: &mut [u64],
    masks: &mut [u16],
    n: usize,
    w: usize,
)
    requires { Space n w (n + n + 1) (length cells.old) (length masks.old) }
    ensures { (b : Book) (used : ℕ → ℕ) → Lettered b n links.now used
        → first n w cells.new masks.new
        ≡ union (first n w cells.old masks.old) (crossed_by (asked b) (letters_in forward against)) }
{
    for label in 0u8..LABELS {
        let plain = every_if(forward, label);
        let inverted = every_if(against, label);
        if plain + inverted != 0 {
            let part = register::label_part(links, label);
            grid::put_letters(part, plain, inverted, cells, masks, n, w);
        }
    }
}

// Zero steps put into the first relation: each record in use joined to itself.
fn put_zero_steps(marks: &[u32], cells: &mut [u64], masks: &mut [u16], n: usize, w: usize)
    requires { Space n w (n + n + 1) (length cells.old) (length masks.old) × (n ≤ length marks.now) }
    ensures { first n w cells.new masks.new
        ≡ union (first n w cells.old masks.old) (within n (diagonal (used_below n marks.now))) }
{
    let used = query::in_use(marks, n);
    grid::put_diagonal(&used, cells, masks, n, w);
}

// One item of the code, on the operands that lie at the front of the two parts; its value takes the place of the first.
fn operate(
    links: &[u32],
    marks: &[u32],
    cells: &mut [u64],
    masks: &mut [u16],
    n: usize,
    w: usize,
    item: Item,
)
    requires { Space n w (n + n + 1) (length cells.old) (length masks.old) × (n ≤ length marks.now) }
    ensures { Operates n w links.now marks.now item
        cells.old cells.new masks.old masks.new }
{
    match item {
        Item::Letters(forward, against) => {
            grid::start(masks, n);
            put_letters(links, forward, against, cells, masks, n, w);
        }
        Item::Inverse => grid::transpose(cells, masks, n, w),
        Item::Star => {
            grid::close(cells, masks, n, w);
            put_zero_steps(marks, cells, masks, n, w);
        }
        Item::Plus => grid::close(cells, masks, n, w),
        Item::Optional => put_zero_steps(marks, cells, masks, n, w),
        Item::Alternative => grid::unite(cells, masks, n, w),
        Item::Sequence => grid::compose(cells, masks, n, w),
    }
}

// How many relations an item takes.
fn operands_of(item: Item) -> usize
    ensures { result ≡ operands item }
{
    match item {
        Item::Letters(_, _) => 0,
        Item::Inverse => 1,
        Item::Star => 1,
        Item::Plus => 1,
        Item::Optional => 1,
        Item::Alternative => 2,
        Item::Sequence => 2,
    }
}

// One number of the code, with so many relations waiting; how many wait then.
fn step(
    links: &[u32],
    marks: &[u32],
    cells: &mut [u64],
    masks: &mut [u16],
    n: usize,
    count: usize,
    item: Item,
) -> usize
    requires { Lent n (suc (count - operands item)) (length cells.old) (length masks.old) × Ready item count × (n ≤ length marks.now) }
    ensures { Goes n links.now marks.now item cells.old
        cells.new masks.old masks.new count result }
{
    let w = query::row_width(n);
    let unit = n * w;
    let below = count - operands_of(item);
    let start = below * unit;
    let mark = below * n;
    operate(
        links,
        marks,
        &mut cells[start..],
        &mut masks[mark..],
        n,
        w,
        item,
    );
    below + 1
}

// Is the number at place i of the code `^`?
fn inverts(code: &[u64], i: usize) -> bool
    ensures { result ≡ true → (i < length code.now) × (item_of (get_or code.now i 0) ≡ Inverse) }
{
    if code.len() <= i {
        return false;
    }
    let item = reader::item_of(code[i]);
    match item {
        Item::Inverse => true,
        _ => false,
    }
}

// The item at place i of the code. `^` right after letters is read with them: their links are crossed in the other sense.
fn next_item(code: &[u64], i: usize) -> Next
    requires { i < length code.now }
    ensures { Reading code.now i result }
{
    let item = reader::item_of(code[i]);
    if !inverts(code, i + 1) {
        return Next { item, used: 1 };
    }
    match item {
        Item::Letters(forward, against) => Next {
            item: Item::Letters(against, forward),
            used: 2,
        },
        _ => Next { item, used: 1 },
    }
}

// The whole code: its value is left as the first relation.
fn run(links: &[u32], marks: &[u32], cells: &mut [u64], masks: &mut [u16], n: usize, code: &[u64])
    requires { LentFor n code.now (length cells.old) (length masks.old) × (n ≤ length marks.now)
        × ((s : List ℕ) × (e : Expr) × Coded s e code.now) }
    ensures { ValueFirst n links.now marks.now code.now cells.new masks.new }
{
    let mut count = 0;
    let mut i = 0;
    while i < code.len() {
        let next = next_item(code, i);
        let item = next.item;
        count = step(links, marks, cells, masks, n, count, item);
        i += next.used;
    }
}

// The lesser of two numbers.
pub fn lesser(a: usize, b: usize) -> usize
    ensures { (result ≤ a) × (result ≤ b) × ((result ≡ a) ⊎ (result ≡ b)) }
{
    if a < b {
        return a;
    }
    b
}

// Are the masks of a code of so many numbers few?
fn few_masks(n: usize, long: usize) -> bool
    requires { n ≤ max_records }
    ensures { result ≡ true → (k : ℕ) → k ≤ most_waiting → k ≤ long → k * n + n < 4097 }
{
    lesser(WAITING, long) * n + n < FEW_MASKS
}

// The first n masks copied.
fn copy_masks(from: &[u16], to: &mut [u16], n: usize)
    requires { (n ≤ length from.now) × (n ≤ length to.old) }
    ensures { (k : ℕ) → k < n → get_or to.new k 0 ≡ get_or from.now k 0 }
{
    for i in 0..n {
        to[i] = from[i];
    }
}

// The code run with masks that are lent; its value is left as the first relation of the work, and its own masks are left apart.
fn leave_run(
    n: usize,
    links: &[u32],
    marks: &[u32],
    code: &[u64],
    work: &mut [u64],
    masks: &mut [u16],
    left: &mut [u16],
)
    requires { LentFor n code.now (length work.old) (length masks.old) × Runnable n marks.now code.now × (n ≤ length left.old) }
    ensures { ValueFirst n links.now marks.now code.now work.new left.new }
{
    run(links, marks, work, masks, n, code);
    copy_masks(masks, left, n);
}

// The same with masks of its own: as many as there may be, or a few, which are cleared in a moment.
fn leave_within(
    n: usize,
    links: &[u32],
    marks: &[u32],
    code: &[u64],
    work: &mut [u64],
    left: &mut [u16],
)
    requires { Runnable n marks.now code.now × (rows_work n ≤ length work.old) × (n ≤ length left.old) }
    ensures { ValueFirst n links.now marks.now code.now work.new left.new }
{
    if few_masks(n, code.len()) {
        let mut few: [u16; FEW_MASKS] = [0; FEW_MASKS];
        leave_run(n, links, marks, code, work, &mut few, left);
        return;
    }
    let mut masks: [u16; MASKS] = [0; MASKS];
    leave_run(n, links, marks, code, work, &mut masks, left);
}

// The value of the code left as the first relation of the work, with its masks. The work of trees, which may be lent, is too short for rows of some numbers of
// records up to 32, whose relations then lie in words of its own.
pub fn leave_value(
    n: usize,
    links: &[u32],
    marks: &[u32],
    code: &[u64],
    work: &mut [u64],
    left: &mut [u16],
)
    requires { Runnable n marks.now code.now × Enough n (length work.old) × (n ≤ length left.old) }
    ensures { ValueFirst n links.now marks.now code.now work.new left.new }
{
    if work.len() < query::rows_work(n) {
        let mut own: [u64; FEW_WORDS] = [0; FEW_WORDS];
        leave_within(n, links, marks, code, &mut own, left);
        answers::copy_u64(&own[..n], work, 0);
        return;
    }
    leave_within(n, links, marks, code, work, left);
}
