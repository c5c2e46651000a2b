// The calls on lent trees and lists: each tests what it is lent, names the first cause against it, and hands over a tree or a list.
// What they promise is stated in specs/Calls.antt.
ghost use Rattle.std.specs.Prelude.{◌≡◌, true, [], ◌∷◌, ◌≤◌, length, take};
ghost use Rattle.book.specs.Causes.{first_number, max_records};
ghost use Rattle.k2.specs.Sizes.{most_tree_words};
ghost use Rattle.k2.specs.PairSets.{Cells, IsSet, set_of, listed, union, intersection, difference, transpose, closure, PairsBelow};
ghost use Rattle.k2.specs.Trees.{tree_words};
ghost use Rattle.k2.specs.TreeSets.{set_in};
ghost use Rattle.bits.specs.BitSets.{none};
ghost use Rattle.rows.specs.RowSets.{no_pairs};
ghost use Rattle.packing.specs.Senses.{sensed};
ghost use Rattle.tree.specs.Inner.{tree_alone, outcome, Roomy, Lent, term_set, TreeAt};
ghost use Rattle.answers.specs.Answers.{Whole, FirstPart};
ghost use Rattle.tree.specs.Calls.{sense_of, product_sensed, lent_causes, Answered, Listed, tree_of_two};

use crate::listing::hand_over;
use crate::operations::{Operand, Operation, Term, no_operand, operate};
use answers::Counted;
use packing::Sense;

// A pair word is from times this, and to.
const PAIR_UNIT: u32 = book::MAX_RECORDS as u32;

// Are both ends of each pair below n?
fn pairs_below(pairs: &[u32], n: usize) -> bool
    ensures { (result ≡ true → PairsBelow n pairs.now) × (PairsBelow n pairs.now → result ≡ true) }
{
    for i in 0..pairs.len() {
        let p = pairs[i];
        if n <= (p / PAIR_UNIT) as usize {
            return false;
        }
        if n <= (p % PAIR_UNIT) as usize {
            return false;
        }
    }
    true
}

// The number of the first cause against n, the pairs, the trees and the length of the work, in this order; 0 if there is none.
fn refusal(n: usize, pairs: &[u32], a: &[u64], b: &[u64], room: usize) -> u32
    ensures { result ≡ first_number (lent_causes n pairs.now (a.now ∷ b.now ∷ []) room) }
{
    if n < 1 {
        return book::BAD_SIZE;
    }
    if book::MAX_RECORDS < n {
        return book::BAD_SIZE;
    }
    if !pairs_below(pairs, n) {
        return book::NO_RECORD;
    }
    if !packing::well_formed(a, n) {
        return book::BAD_TREE;
    }
    if !packing::well_formed(b, n) {
        return book::BAD_TREE;
    }
    if room < 32 * k2::tree_unit(n) {
        return book::SHORT_WORK;
    }
    0
}

// Refused if the tree at the front of work is longer than its list; otherwise it is handed over.
fn settle(work: &[u64], len: usize, out: &mut [u64]) -> Counted
    requires { len ≤ length work.now }
    ensures { Whole (take len work.now) out.old out.new result }
{
    if out.len() < len {
        return Counted::Refused(book::SHORT_LIST);
    }
    answers::copy_u64(&work[..len], out, 0);
    Counted::Count(len)
}

// A tree of so many words as an operand.
fn tree_of(size: usize, sense: Sense) -> Operand
    ensures { result ≡ tree_alone size sense }
{
    Operand {
        size,
        sense,
        forward: 0,
        against: 0,
    }
}

// The outcome of a term, as a tree at the front of work; how many words it has. No record is in use. It has rows of its own.
fn made(term: Term, work: &mut [u64], n: usize, links: &[u32]) -> usize
    requires { Roomy n term (length work.old) }
    ensures { (result ≤ length work.old) × ((a b : Cells) → Lent term n links.now none work.old a b
        → TreeAt n (term_set term n links.now none a b) work.new result) }
{
    let used: [u64; 16] = [0; 16];
    let mut rows: [u64; k2::ROWS_WORDS] = [0; k2::ROWS_WORDS];
    operate(term, work, n, links, &used, &mut rows)
}

// The sense that a number of the exported call stands for.
pub fn sense_of(word: u8) -> Sense
    ensures { result ≡ sense_of word }
{
    if word == 0 {
        return Sense::Plain;
    }
    Sense::Inverted
}

// An operation on two lent trees, each read with a sense.
fn binary(
    operation: Operation,
    n: usize,
    a: &[u64],
    a_sense: Sense,
    b: &[u64],
    b_sense: Sense,
    out: &mut [u64],
    work: &mut [u64],
) -> Counted
    ensures { Answered n [] (a.now ∷ b.now ∷ []) (length work.old)
        (tree_of_two (λ x y. outcome operation n none (sensed a_sense x) (sensed b_sense y)) n a.now b.now)
        out.old out.new result }
{
    let no_links: [u32; 1] = [0; 1];
    let cause = refusal(n, &no_links[..0], a, b, work.len());
    if cause != 0 {
        return Counted::Refused(cause);
    }
    answers::copy_u64(a, work, 0);
    answers::copy_u64(b, work, a.len());
    let term = Term {
        operation,
        first: tree_of(a.len(), a_sense),
        second: tree_of(b.len(), b_sense),
    };
    let len = made(term, work, n, &no_links[..0]);
    settle(work, len, out)
}

// An operation on two lent trees, each read as it is.
fn plain(
    operation: Operation,
    n: usize,
    a: &[u64],
    b: &[u64],
    out: &mut [u64],
    work: &mut [u64],
) -> Counted
    ensures { Answered n [] (a.now ∷ b.now ∷ []) (length work.old)
        (tree_of_two (outcome operation n none) n a.now b.now) out.old out.new result }
{
    binary(operation, n, a, Sense::Plain, b, Sense::Plain, out, work)
}

// An operation on one lent tree, read with a sense.
fn unary(
    operation: Operation,
    n: usize,
    a: &[u64],
    sense: Sense,
    out: &mut [u64],
    work: &mut [u64],
) -> Counted
    ensures { Answered n [] (a.now ∷ []) (length work.old)
        (tree_words n (outcome operation n none no_pairs (sensed sense (set_in n a.now)))) out.old out.new result }
{
    let no_links: [u32; 1] = [0; 1];
    let cause = refusal(n, &no_links[..0], a, &a[..0], work.len());
    if cause != 0 {
        return Counted::Refused(cause);
    }
    answers::copy_u64(a, work, 0);
    let term = Term {
        operation,
        first: no_operand(),
        second: tree_of(a.len(), sense),
    };
    let len = made(term, work, n, &no_links[..0]);
    settle(work, len, out)
}

// The tree of the pairs in either.
pub fn union(n: usize, a: &[u64], b: &[u64], out: &mut [u64], work: &mut [u64]) -> Counted
    ensures { Answered n [] (a.now ∷ b.now ∷ []) (length work.old)
        (tree_of_two union n a.now b.now) out.old out.new result }
{
    plain(Operation::Union, n, a, b, out, work)
}

// The tree of the pairs in both.
pub fn intersection(n: usize, a: &[u64], b: &[u64], out: &mut [u64], work: &mut [u64]) -> Counted
    ensures { Answered n [] (a.now ∷ b.now ∷ []) (length work.old)
        (tree_of_two intersection n a.now b.now) out.old out.new result }
{
    plain(Operation::Intersection, n, a, b, out, work)
}

// The tree of the pairs in the first and not in the second.
pub fn difference(n: usize, a: &[u64], b: &[u64], out: &mut [u64], work: &mut [u64]) -> Counted
    ensures { Answered n [] (a.now ∷ b.now ∷ []) (length work.old)
        (tree_of_two difference n a.now b.now) out.old out.new result }
{
    plain(Operation::Difference, n, a, b, out, work)
}

// The tree of the product, each operand read with its sense: the pairs for which some middle record serves.
pub fn product(
    n: usize,
    a: &[u64],
    a_sense: Sense,
    b: &[u64],
    b_sense: Sense,
    out: &mut [u64],
    work: &mut [u64],
) -> Counted
    ensures { Answered n [] (a.now ∷ b.now ∷ []) (length work.old)
        (tree_of_two (product_sensed n a_sense b_sense) n a.now b.now) out.old out.new result }
{
    binary(Operation::Product, n, a, a_sense, b, b_sense, out, work)
}

// The tree of the pairs exchanged.
pub fn transpose(n: usize, a: &[u64], out: &mut [u64], work: &mut [u64]) -> Counted
    ensures { Answered n [] (a.now ∷ []) (length work.old)
        (tree_words n (transpose (set_in n a.now))) out.old out.new result }
{
    unary(Operation::Union, n, a, Sense::Inverted, out, work)
}

// The tree of the closure: one or more pairs that lead from one to the other.
pub fn closure(n: usize, a: &[u64], out: &mut [u64], work: &mut [u64]) -> Counted
    ensures { Answered n [] (a.now ∷ []) (length work.old)
        (tree_words n (closure n (set_in n a.now))) out.old out.new result }
{
    unary(Operation::Closure, n, a, Sense::Plain, out, work)
}

// The tree of a list of pair words, in any order and with repeats.
pub fn make(n: usize, pairs: &[u32], out: &mut [u64], work: &mut [u64]) -> Counted
    ensures { Answered n pairs.now [] (length work.old)
        (tree_words n (set_of pairs.now)) out.old out.new result }
{
    let none: [u64; 1] = [0; 1];
    let empty = &none[..0];
    let cause = refusal(n, pairs, empty, empty, work.len());
    if cause != 0 {
        return Counted::Refused(cause);
    }
    let term = Term {
        operation: Operation::Union,
        first: no_operand(),
        second: Operand {
            size: 0,
            sense: Sense::Plain,
            forward: 1,
            against: 0,
        },
    };
    let len = made(term, work, n, pairs);
    settle(work, len, out)
}

// The pairs of a tree handed over.
fn list_pairs(tree: &[u64], n: usize, out: &mut [u32]) -> Counted
    requires { (n ≤ max_records) × (length tree.now ≤ most_tree_words) }
    ensures { (a : Cells) → IsSet n a → tree.now ≡ tree_words n a → FirstPart (listed n a) out.old out.new result }
{
    let mut rows: [u64; k2::ROWS_WORDS] = [0; k2::ROWS_WORDS];
    packing::load(tree, n, Sense::Plain, &mut rows);
    hand_over(&rows, n, out)
}

// The pairs of a tree, ascending, as many as the list takes; how many they are in all.
pub fn list(n: usize, a: &[u64], out: &mut [u32], work: &mut [u64]) -> Counted
    ensures { Listed n (a.now ∷ []) (length work.old)
        (listed n (set_in n a.now)) out.old out.new result }
{
    let none: [u32; 1] = [0; 1];
    let cause = refusal(n, &none[..0], a, &a[..0], work.len());
    if cause != 0 {
        return Counted::Refused(cause);
    }
    list_pairs(a, n, out)
}
