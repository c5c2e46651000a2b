// The calls on trees.
ghost use Rattle.std.specs.Prelude.{[], ◌∷◌, length};
ghost use Rattle.k2.specs.PairSets.{set_of, listed, union, intersection, difference, transpose, closure};
ghost use Rattle.k2.specs.Trees.{tree_words};
ghost use Rattle.k2.specs.TreeSets.{set_in};
ghost use Rattle.tree.specs.Calls.{sense_of, product_sensed, Answered, Listed, tree_of_two};
ghost use Rattle.host.specs.Host.{told_counted, Told};

use answers::told;

// The tree of a list of pair words, in any order and with repeats.
#[unsafe(no_mangle)]
pub extern "C" fn dating_tree_make(
    n: usize,
    pairs: &[u32],
    tree: &mut [u64],
    work: &mut [u64],
) -> u64
    ensures { Told
        (Answered n pairs.now [] (length work.old) (tree_words n (set_of pairs.now)) tree.old tree.new)
        told_counted result }
{
    told(engine::tree_make(n, pairs, tree, work))
}

// The pairs of a tree, ascending, as many as the list takes; how many they are in all.
#[unsafe(no_mangle)]
pub extern "C" fn dating_tree_list(
    n: usize,
    tree: &[u64],
    list: &mut [u32],
    work: &mut [u64],
) -> u64
    ensures { Told
        (Listed n (tree.now ∷ []) (length work.old) (listed n (set_in n tree.now)) list.old list.new)
        told_counted result }
{
    told(engine::tree_list(n, tree, list, work))
}

// The tree of the pairs in either.
#[unsafe(no_mangle)]
pub extern "C" fn dating_tree_union(
    n: usize,
    a: &[u64],
    b: &[u64],
    out: &mut [u64],
    work: &mut [u64],
) -> u64
    ensures { Told
        (Answered n [] (a.now ∷ b.now ∷ []) (length work.old)
        (tree_of_two union n a.now b.now) out.old out.new) told_counted result }
{
    told(engine::tree_union(n, a, b, out, work))
}

// The tree of the pairs in both.
#[unsafe(no_mangle)]
pub extern "C" fn dating_tree_intersection(
    n: usize,
    a: &[u64],
    b: &[u64],
    out: &mut [u64],
    work: &mut [u64],
) -> u64
    ensures { Told
        (Answered n [] (a.now ∷ b.now ∷ []) (length work.old)
        (tree_of_two intersection n a.now b.now) out.old out.new) told_counted result }
{
    told(engine::tree_intersection(n, a, b, out, work))
}

// The tree of the pairs in the first and not in the second.
#[unsafe(no_mangle)]
pub extern "C" fn dating_tree_difference(
    n: usize,
    a: &[u64],
    b: &[u64],
    out: &mut [u64],
    work: &mut [u64],
) -> u64
    ensures { Told
        (Answered n [] (a.now ∷ b.now ∷ []) (length work.old)
        (tree_of_two difference n a.now b.now) out.old out.new) told_counted result }
{
    told(engine::tree_difference(n, a, b, out, work))
}

// The tree of the product, each operand read with its sense, 0 plain and any other inverted: the pairs for which some middle record serves.
#[unsafe(no_mangle)]
pub extern "C" fn dating_tree_product(
    n: usize,
    a: &[u64],
    a_sense: u8,
    b: &[u64],
    b_sense: u8,
    out: &mut [u64],
    work: &mut [u64],
) -> u64
    ensures { Told
        (Answered n [] (a.now ∷ b.now ∷ []) (length work.old)
        (tree_of_two (product_sensed n (sense_of a_sense) (sense_of b_sense)) n a.now b.now)
        out.old out.new) told_counted result }
{
    let s = tree::sense_of(a_sense);
    let t = tree::sense_of(b_sense);
    told(engine::tree_product(n, a, s, b, t, out, work))
}

// The tree of the pairs exchanged.
#[unsafe(no_mangle)]
pub extern "C" fn dating_tree_transpose(
    n: usize,
    a: &[u64],
    out: &mut [u64],
    work: &mut [u64],
) -> u64
    ensures { Told
        (Answered n [] (a.now ∷ []) (length work.old)
        (tree_words n (transpose (set_in n a.now))) out.old out.new) told_counted result }
{
    told(engine::tree_transpose(n, a, out, work))
}

// The tree of the closure: one or more pairs that lead from one to the other.
#[unsafe(no_mangle)]
pub extern "C" fn dating_tree_closure(n: usize, a: &[u64], out: &mut [u64], work: &mut [u64]) -> u64
    ensures { Told
        (Answered n [] (a.now ∷ []) (length work.old)
        (tree_words n (closure n (set_in n a.now))) out.old out.new) told_counted result }
{
    told(engine::tree_closure(n, a, out, work))
}
