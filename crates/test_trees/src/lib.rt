// Exports the inner tree operations (`rt staticlib test_trees`) to a Rust program that tests and measures them. Each promises what `operate` of crate tree
// promises of its term (specs/Terms.antt).
#![tactic(auto)]

ghost use Rattle.std.specs.Prelude.{◌≡◌, [], ◌≤◌, length, take, replicate};
ghost use Rattle.book.specs.Causes.{max_records};
ghost use Rattle.k2.specs.Bits.{bit_at};
ghost use Rattle.k2.specs.PairSets.{Cells, IsSet, union};
ghost use Rattle.k2.specs.Trees.{tree_words};
ghost use Rattle.bits.specs.BitSets.{none};
ghost use Rattle.packing.specs.declared.loading.Sense.TheVariants.{Plain, Inverted};
ghost use Rattle.tree.specs.declared.operations.Operation.TheVariants.{Union, Intersection, Difference, Product, Closure, Optional};
ghost use Rattle.tree.specs.Calls.{sense_of};
ghost use Rattle.tree.specs.Inner.{Roomy, TreeAt, Operated};
ghost use Rattle.test_trees.specs.Terms.{on_two, on_one, any_letter, below, identity};

use packing::Sense;
use tree::{Operand, Operation, Term};

// An operation on two trees, with no links. It has rows of its own.
fn on_trees(
    operation: Operation,
    left: usize,
    s: Sense,
    right: usize,
    t: Sense,
    work: &mut [u64],
    n: usize,
    used: &[u64],
) -> usize
    ensures { Operated (on_two operation left s right t) n [] used.now 16384 work.old work.new result }
{
    let links: [u32; 1] = [0; 1];
    let mut rows: [u64; 16384] = [0; 16384];
    let term = Term {
        operation,
        first: Operand {
            size: left,
            sense: s,
            forward: 0,
            against: 0,
        },
        second: Operand {
            size: right,
            sense: t,
            forward: 0,
            against: 0,
        },
    };
    tree::operate(term, work, n, &links[..0], used, &mut rows)
}

// The same with no record in use.
fn on_two(
    operation: Operation,
    left: usize,
    s: Sense,
    right: usize,
    t: Sense,
    work: &mut [u64],
    n: usize,
) -> usize
    ensures { Operated (on_two operation left s right t) n [] (replicate 16 0) 16384 work.old work.new result }
{
    let used: [u64; 16] = [0; 16];
    on_trees(operation, left, s, right, t, work, n, &used)
}

#[unsafe(no_mangle)]
pub extern "C" fn tree_union_in(work: &mut [u64], n: usize, left: usize, right: usize) -> usize
    ensures { Operated (on_two Union left Plain right Plain) n [] (replicate 16 0) 16384 work.old work.new result }
{
    on_two(
        Operation::Union,
        left,
        Sense::Plain,
        right,
        Sense::Plain,
        work,
        n,
    )
}

#[unsafe(no_mangle)]
pub extern "C" fn tree_intersection_in(
    work: &mut [u64],
    n: usize,
    left: usize,
    right: usize,
) -> usize
    ensures { Operated (on_two Intersection left Plain right Plain) n [] (replicate 16 0) 16384 work.old work.new result }
{
    on_two(
        Operation::Intersection,
        left,
        Sense::Plain,
        right,
        Sense::Plain,
        work,
        n,
    )
}

#[unsafe(no_mangle)]
pub extern "C" fn tree_difference_in(work: &mut [u64], n: usize, left: usize, right: usize) -> usize
    ensures { Operated (on_two Difference left Plain right Plain) n [] (replicate 16 0) 16384 work.old work.new result }
{
    on_two(
        Operation::Difference,
        left,
        Sense::Plain,
        right,
        Sense::Plain,
        work,
        n,
    )
}

#[unsafe(no_mangle)]
pub extern "C" fn tree_product_in(
    work: &mut [u64],
    n: usize,
    left: usize,
    right: usize,
    s: u8,
    t: u8,
) -> usize
    ensures { Operated (on_two Product left (sense_of s) right (sense_of t)) n [] (replicate 16 0) 16384 work.old work.new result }
{
    let left_sense = tree::sense_of(s);
    let right_sense = tree::sense_of(t);
    on_two(
        Operation::Product,
        left,
        left_sense,
        right,
        right_sense,
        work,
        n,
    )
}

#[unsafe(no_mangle)]
pub extern "C" fn tree_transpose_in(work: &mut [u64], n: usize, left: usize) -> usize
    ensures { Operated (on_one Union left Inverted) n [] (replicate 16 0) 16384 work.old work.new result }
{
    on_two(
        Operation::Union,
        0,
        Sense::Plain,
        left,
        Sense::Inverted,
        work,
        n,
    )
}

#[unsafe(no_mangle)]
pub extern "C" fn tree_closure_in(work: &mut [u64], n: usize, left: usize) -> usize
    ensures { Operated (on_one Closure left Plain) n [] (replicate 16 0) 16384 work.old work.new result }
{
    on_two(
        Operation::Closure,
        0,
        Sense::Plain,
        left,
        Sense::Plain,
        work,
        n,
    )
}

// The records below n marked as in use.
fn mark(used: &mut [u64], n: usize)
    requires { (n ≤ max_records) × (length used.old ≡ 16) }
    ensures { bit_at used.old ≡ none → bit_at used.new ≡ below n }
{
    for i in 0..n {
        bits::set_bit(used, i);
    }
}

#[unsafe(no_mangle)]
pub extern "C" fn tree_identity_in(work: &mut [u64], n: usize, left: usize) -> usize
    ensures { Roomy n (on_one Optional left Plain) (length work.old) → (a : Cells) → IsSet n a → take left work.old ≡ tree_words n a
        → TreeAt n (union a (identity n)) work.new result }
{
    if book::MAX_RECORDS < n {
        return 0;
    }
    let mut used: [u64; 16] = [0; 16];
    mark(&mut used, n);
    on_trees(
        Operation::Optional,
        0,
        Sense::Plain,
        left,
        Sense::Plain,
        work,
        n,
        &used,
    )
}

#[unsafe(no_mangle)]
pub extern "C" fn tree_letter_in(work: &mut [u64], n: usize, words: &[u32]) -> usize
    ensures { Operated any_letter n words.now (replicate 16 0) 16384 work.old work.new result }
{
    let used: [u64; 16] = [0; 16];
    let mut rows: [u64; 16384] = [0; 16384];
    let term = Term {
        operation: Operation::Union,
        first: Operand {
            size: 0,
            sense: Sense::Plain,
            forward: 0,
            against: 0,
        },
        second: Operand {
            size: 0,
            sense: Sense::Plain,
            forward: 4294967295,
            against: 0,
        },
    };
    tree::operate(term, work, n, words, &used, &mut rows)
}
