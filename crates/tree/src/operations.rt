// An operation takes operands that lie in a part of the lent work. Each is a k2-tree with the links of its letters beside it, read with one sense.
// What an operation promises is stated in specs/Inner.antt.
ghost use Rattle.std.specs.Prelude.{◌≡◌, true, ℕ, length, take, drop};
ghost use Rattle.k2.specs.Sizes.{rows_words};
ghost use Rattle.k2.specs.Bits.{bit_at};
ghost use Rattle.k2.specs.PairSets.{Cells, IsSet, union};
ghost use Rattle.k2.specs.Trees.{tree_words};
ghost use Rattle.rows.specs.Rows.{flat};
ghost use Rattle.rows.specs.RowSets.{crossed_words};
ghost use Rattle.packing.specs.Senses.{sensed, opposite};
ghost use Rattle.tree.specs.Inner.{nothing, flipped, valued, LinksBelow, Apart, outcome, Roomy, Room, InRows, Operated, Loading};

use packing::Sense;

// What is done with the sets of two operands; the last three take the union of both, so that an operation on one operand has none as its first.
#[derive(Clone, Copy)]
pub enum Operation {
    Union,
    Intersection,
    Difference,
    Product,
    Closure,
    Optional,
    Star,
}

// An operand: the words of its tree, the sense in which it is read, and the letters whose links are beside the tree, as two sets of labels: those crossed
// forward, and those crossed against their sense.
#[derive(Clone, Copy)]
pub struct Operand {
    pub size: usize,
    pub sense: Sense,
    pub forward: u32,
    pub against: u32,
}

// An operation with its operands; the first one's tree lies before the second's.
#[derive(Clone, Copy)]
pub struct Term {
    pub operation: Operation,
    pub first: Operand,
    pub second: Operand,
}

// The operand that has no pair.
pub fn no_operand() -> Operand
    ensures { result ≡ nothing }
{
    Operand {
        size: 0,
        sense: Sense::Plain,
        forward: 0,
        against: 0,
    }
}

// The other sense.
fn opposite(sense: Sense) -> Sense
    ensures { result ≡ opposite sense }
{
    match sense {
        Sense::Plain => Sense::Inverted,
        Sense::Inverted => Sense::Plain,
    }
}

// The operand with each pair exchanged; nothing is written.
pub fn inverted(operand: Operand) -> Operand
    ensures { result ≡ flipped operand }
{
    let sense = operand.sense;
    Operand {
        size: operand.size,
        sense: opposite(sense),
        forward: operand.forward,
        against: operand.against,
    }
}

// The links of an operand's letters put into rows, read with its sense.
fn put_links(operand: Operand, links: &[u32], rows: &mut [u64])
    requires { length rows.old ≡ rows_words }
    ensures { (x : Cells) → bit_at rows.old ≡ flat x
        → bit_at rows.new ≡ flat (union x (sensed operand.sense (crossed_words links.now operand.forward operand.against))) }
{
    if operand.forward == 0 {
        if operand.against == 0 {
            return;
        }
    }
    let sense = operand.sense;
    match sense {
        Sense::Plain => rows::put_letters(links, operand.forward, operand.against, rows),
        Sense::Inverted => rows::put_letters(links, operand.against, operand.forward, rows),
    }
}

// The tree of an operand, at word `at`, put into rows, read with its sense.
fn load_tree(work: &[u64], at: usize, operand: Operand, n: usize, rows: &mut [u64])
    requires { Loading n operand at work.now rows.old }
    ensures { (a x : Cells) → IsSet n a → take operand.size (drop at work.now) ≡ tree_words n a → bit_at rows.old ≡ flat x
        → bit_at rows.new ≡ flat (union x (sensed operand.sense a)) }
{
    if operand.size == 0 {
        return;
    }
    let end = at + operand.size;
    let sense = operand.sense;
    packing::load(&work[at..end], n, sense, rows);
}

// An operand, whose tree is at word `at`, put into rows.
fn load(work: &[u64], at: usize, operand: Operand, n: usize, links: &[u32], rows: &mut [u64])
    requires { Loading n operand at work.now rows.old }
    ensures { (a x : Cells) → IsSet n a → take operand.size (drop at work.now) ≡ tree_words n a → bit_at rows.old ≡ flat x
        → bit_at rows.new ≡ flat (union x (valued links.now operand a)) }
{
    load_tree(work, at, operand, n, rows);
    put_links(operand, links, rows);
}

// The operation on the set in rows and the second operand, which is loaded into rows of its own, for a product with its pairs exchanged: intersection,
// difference or product. Left in rows.
fn with_second(term: Term, work: &[u64], n: usize, links: &[u32], rows: &mut [u64])
    requires { Roomy n term (length work.now) × Apart term.operation × (length rows.old ≡ rows_words) }
    ensures { (a b : Cells) (u : ℕ → ℕ) → IsSet n a → IsSet n b
        → take term.second.size (drop term.first.size work.now) ≡ tree_words n b
        → LinksBelow n links.now → bit_at rows.old ≡ flat a
        → bit_at rows.new ≡ flat (outcome term.operation n u a (valued links.now term.second b)) }
{
    let mut other: [u64; k2::ROWS_WORDS] = [0; k2::ROWS_WORDS];
    let first = term.first;
    let second = term.second;
    let operation = term.operation;
    match operation {
        Operation::Intersection => {
            load(work, first.size, second, n, links, &mut other);
            rows::intersect(rows, &other);
        }
        Operation::Difference => {
            load(work, first.size, second, n, links, &mut other);
            rows::minus(rows, &other);
        }
        Operation::Product => {
            load(work, first.size, inverted(second), n, links, &mut other);
            rows::compose(rows, &other, n);
        }
        Operation::Union => {}
        Operation::Closure => {}
        Operation::Optional => {}
        Operation::Star => {}
    }
}

// The operation on the set in rows and the second operand, left in rows.
fn combine(term: Term, work: &[u64], n: usize, links: &[u32], used: &[u64], rows: &mut [u64])
    requires { Roomy n term (length work.now) × (length used.now ≡ 16) × (length rows.old ≡ rows_words) }
    ensures { (a b : Cells) → IsSet n a → IsSet n b → take term.second.size (drop term.first.size work.now) ≡ tree_words n b
        → LinksBelow n links.now → bit_at rows.old ≡ flat a
        → bit_at rows.new ≡ flat (outcome term.operation n (bit_at used.now) a (valued links.now term.second b)) }
{
    let first = term.first;
    let second = term.second;
    let operation = term.operation;
    match operation {
        Operation::Union => load(work, first.size, second, n, links, rows),
        Operation::Intersection => with_second(term, work, n, links, rows),
        Operation::Difference => with_second(term, work, n, links, rows),
        Operation::Product => with_second(term, work, n, links, rows),
        Operation::Closure => {
            load(work, first.size, second, n, links, rows);
            grid::close_rows(rows, n);
        }
        Operation::Optional => {
            load(work, first.size, second, n, links, rows);
            rows::set_diagonal(rows, used);
        }
        Operation::Star => {
            load(work, first.size, second, n, links, rows);
            grid::close_rows(rows, n);
            rows::set_diagonal(rows, used);
        }
    }
}

// Is there room for an operation on operands of these sizes in so many words of work, of the set of records in use and of rows?
fn room(n: usize, term: Term, work: usize, used: usize, rows: usize) -> bool
    ensures { (result ≡ true → Room n term work used rows) × (Room n term work used rows → result ≡ true) }
{
    if book::MAX_RECORDS < n {
        return false;
    }
    if used != 16 {
        return false;
    }
    if rows != k2::ROWS_WORDS {
        return false;
    }
    let unit = k2::tree_unit(n);
    let first = term.first;
    let second = term.second;
    if unit < first.size {
        return false;
    }
    if unit < second.size {
        return false;
    }
    2 * unit <= work
}

// What an operation makes of its operands, whose trees lie at the front of work and whose links are among the lent ones; zero steps go by the lent set of
// records in use. Its outcome is left in rows. Without room nothing is done; is there?
pub fn outcome_rows(
    term: Term,
    work: &[u64],
    n: usize,
    links: &[u32],
    used: &[u64],
    rows: &mut [u64],
) -> bool
    ensures { InRows term n links.now used.now work.now rows.old rows.new result }
{
    if !room(n, term, work.len(), used.len(), rows.len()) {
        return false;
    }
    rows::clear(rows);
    let first = term.first;
    load(work, 0, first, n, links, rows);
    combine(term, work, n, links, used, rows);
    true
}

// The same as a tree, left at the front of work; how many words it has. The rows may hold anything then. Without room nothing is done, and the number is 0.
pub fn operate(
    term: Term,
    work: &mut [u64],
    n: usize,
    links: &[u32],
    used: &[u64],
    rows: &mut [u64],
) -> usize
    ensures { Operated term n links.now used.now (length rows.old) work.old work.new result }
{
    if outcome_rows(term, work, n, links, used, rows) {
        return packing::pack(rows, n, work);
    }
    0
}
