// The definitions under specs/ say what sets of pairs and their k2-trees are; their laws stand beside them. The code gives the sizes of a tree for n records:
// its height, the bits of a full one, and D, the words of a full one. They are defined in specs/Trees.antt and specs/Heap.antt.
#![tactic(auto)]

ghost use Rattle.std.specs.Prelude.{◌≡◌, ◌^◌, ◌≤◌};
ghost use Rattle.book.specs.Causes.{max_records};
ghost use Rattle.k2.specs.Sizes.{most_tree_words, most_tree_bits};
ghost use Rattle.k2.specs.Trees.{height, tree_unit};
ghost use Rattle.k2.specs.Heap.{full_size};

// The words of 1,024 rows of 1,024 bits.
pub const ROWS_WORDS: usize = 16384;

// The height of the trees for n records: the side is 2 ^ height.
pub fn height(n: usize) -> usize
    requires { n ≤ max_records }
    ensures { (result ≡ height n) × (1 ≤ result) × (result ≤ 10) × (n ≤ 2 ^ result) }
{
    (n.max(2) - 1).ilog2() as usize + 1
}

// The bits of a full tree of h levels.
pub fn full_size(h: usize) -> usize
    requires { h ≤ 10 }
    ensures { (result ≡ full_size h 1) × (result ≤ most_tree_bits) }
{
    let side: usize = 1 << h;
    4 * (side * side - 1) / 3
}

// D: the words of a full tree.
pub fn tree_unit(n: usize) -> usize
    requires { n ≤ max_records }
    ensures { (result ≡ tree_unit n) × (1 ≤ result) × (result ≤ most_tree_words) }
{
    full_size(height(n)).div_ceil(64)
}
