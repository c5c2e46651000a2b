// A k2-tree loaded into rows of bits: the ones of its words counted, then its squares read level by level.
// What reading a square means is stated in specs/Reading.antt.
ghost use Rattle.std.specs.Prelude.{◌≡◌, ℕ, ◌+◌, ◌-◌, ◌*◌, ◌/◌, ◌%◌, ◌^◌, ◌<◌, ◌≤◌, length, take};
ghost use Rattle.book.specs.Causes.{max_records};
ghost use Rattle.k2.specs.Sizes.{rows_words, most_tree_words, most_counts, most_child_place};
ghost use Rattle.k2.specs.Bits.{digit, bit_at};
ghost use Rattle.k2.specs.DigitLaws.{shifted};
ghost use Rattle.k2.specs.PairSets.{Cells, IsSet, union};
ghost use Rattle.k2.specs.Trees.{tree_words, child_place};
ghost use Rattle.bits.specs.BitSets.{either};
ghost use Rattle.rows.specs.Rows.{flat};
ghost use Rattle.packing.specs.Senses.{sensed};
ghost use Rattle.packing.specs.Reading.{turned, inside, Counted, Reads, squares_of, SquareIn, AllFit, AllRead};
ghost use Rattle.packing.specs.Reading.{CountAsked, LevelAsked, SquaresAsked, NextAsked, CellsAsked, NextOne};

// The most rows and columns.
const SIDE: usize = book::MAX_RECORDS;

// So many counts of ones there are at most: one for each word of a tree, or of a long one for each block of four.
const COUNTS: usize = 5462;

// How a tree is read: as it is, or with each pair exchanged.
#[derive(Clone, Copy)]
pub enum Sense {
    Plain,
    Inverted,
}

impl Sense {
    // The quarter that is read as quarter q; inverted, the second and the third are exchanged.
    fn turn(self, q: u32) -> u32
        requires { q < 4 }
        ensures { (result ≡ turned self q) × (result < 4) }
    {
        match self {
            Sense::Plain => q,
            Sense::Inverted => q % 2 * 2 + q / 2,
        }
    }
}

// The ones before each block of BLOCK words of a tree.
fn count<const BLOCK: usize>(tree: &[u64], before: &mut [u32])
    requires { CountAsked BLOCK tree.now before.old }
    ensures { Counted BLOCK tree.now before.new }
{
    let mut n: u32 = 0;
    for (i, w) in tree.iter().enumerate() {
        if i % BLOCK == 0 {
            before[i / BLOCK] = n;
        }
        n += w.count_ones();
    }
}

// Two bits put in at p, which is even, beside what is there.
fn or_two(words: &mut [u64], p: usize, v: u64)
    requires { (p % 2 ≡ 0) × (p / 64 < length words.old) × (v < 4) }
    ensures { bit_at words.new ≡ either (bit_at words.old) (shifted p v) }
{
    let q = p / 64;
    words[q] = words[q] | v << (p % 64);
}

// The four cells of a square of side 2 at row x and column y put into rows.
fn put_cells(rows: &mut [u64], x: usize, y: usize, v: u64)
    requires { CellsAsked x y v rows.old }
    ensures { (a t : Cells) → bit_at rows.old ≡ flat a → ((q : ℕ) → q < 4 → digit v q ≡ t (x + q / 2) (y + q % 2))
        → bit_at rows.new ≡ flat (union a (inside 1 x y t)) }
{
    or_two(rows, x * SIDE + y, v % 4);
    or_two(rows, (x + 1) * SIDE + y, v / 4);
}

// Half the side of a square.
fn half(h: usize) -> u32
    requires { (2 ≤ h) × (h ≤ 10) }
    ensures { (result ≡ 2 ^ (h - 1)) × (result + result ≡ 2 ^ h) × (result % 2 ≡ 0) }
{
    1 << (h - 1)
}

// The first place from q on where v has a one, or 4.
fn next_one(v: u64, q: u32) -> u32
    requires { (v < 16) × (q ≤ 4) }
    ensures { NextOne v q result }
{
    q + ((v + 16) >> q).trailing_zeros()
}

// A square of a tree: the bit at which its four bits begin, its row and its column.
#[derive(Clone, Copy)]
struct Square {
    bit: u32,
    row: u32,
    column: u32,
}

// The whole of a tree.
const ROOT: Square = Square {
    bit: 0,
    row: 0,
    column: 0,
};

// A tree as it is read: its words, the ones before each block of BLOCK words, and the sense.
#[derive(Clone, Copy)]
struct Reading<'a, const BLOCK: usize> {
    tree: &'a [u64],
    before: &'a [u32],
    sense: Sense,
    ghost some: { 0 < BLOCK },
    ghost short: { length tree.now ≤ most_tree_words },
    ghost counted: { Counted BLOCK tree.now before.now },
}

impl<const BLOCK: usize> Reading<'_, BLOCK> {
    // Where the children of the 1 at bit p begin: four times the count of ones in bits 0 to p.
    fn child(&self, p: u32) -> u32
        requires { p / 64 < length self.now.tree.now }
        ensures { (result ≡ child_place (bit_at self.now.tree.now) p) × (result ≤ most_child_place) }
    {
        let q = (p / 64) as usize;
        let block = q / BLOCK;
        let mut n = self.before[block];
        for w in &self.tree[block * BLOCK..q] {
            n += w.count_ones();
        }
        4 * (n + (self.tree[q] << (63 - p % 64)).count_ones())
    }

    // The four bits of a square, from bit b on, in the order in which they are read.
    fn four(&self, b: u32) -> u64
        requires { b % 4 ≡ 0 }
        ensures { (result < 16) × ((q : ℕ) → q < 4 → digit result q ≡ bit_at self.now.tree.now (b + turned self.now.sense q)) }
    {
        let v = bits::four(self.tree, b as usize);
        match self.sense {
            Sense::Plain => v,
            Sense::Inverted => v % 2 + v / 2 % 2 * 4 + v / 4 % 2 * 2 + v / 8 * 8,
        }
    }

    // The quarters that are not empty of a square of side 2 ^ h put behind the m squares of next; how many there are then.
    fn children(&self, h: usize, at: Square, next: &mut [Square], m: usize) -> usize
        requires { LevelAsked 2 h × SquareIn h at.bit at.row at.column × NextAsked (h - 1) next.old m }
        ensures { (result ≤ m + 4) × AllFit (h - 1) (take result next.new)
            × ((t : Cells) → Reads self.now.sense self.now.tree.now h at.bit at.row at.column t
            → AllRead self.now.sense self.now.tree.now (h - 1) (take m next.old) t
            → AllRead self.now.sense self.now.tree.now (h - 1) (take result next.new) t
            × (squares_of (h - 1) (take result next.new) t ≡ union (squares_of (h - 1) (take m next.old) t) (inside h at.row at.column t))) }
    {
        let v = self.four(at.bit);
        let s = half(h);
        let mut k = m;
        let mut q = next_one(v, 0);
        while q < 4 {
            next[k] = Square {
                bit: self.child(at.bit + self.sense.turn(q)),
                row: at.row + q / 2 * s,
                column: at.column + q % 2 * s,
            };
            k += 1;
            q = next_one(v, q + 1);
        }
        k
    }

    // The quarters that are not empty of some squares of side 2 ^ h; how many there are.
    fn spread(&self, h: usize, squares: &[Square], next: &mut [Square]) -> usize
        requires { LevelAsked 2 h × SquaresAsked h squares.now × (length next.old ≡ 64) }
        ensures { (result ≤ 64) × AllFit (h - 1) (take result next.new)
            × ((t : Cells) → AllRead self.now.sense self.now.tree.now h squares.now t
            → AllRead self.now.sense self.now.tree.now (h - 1) (take result next.new) t
            × (squares_of (h - 1) (take result next.new) t ≡ squares_of h squares.now t)) }
    {
        let mut m = 0;
        for at in squares {
            m = self.children(h, *at, next, m);
        }
        m
    }

    // The cells of some squares of side 2 put into rows.
    fn leaves(&self, squares: &[Square], rows: &mut [u64])
        requires { SquaresAsked 1 squares.now × (length rows.old ≡ rows_words) }
        ensures { (a t : Cells) → bit_at rows.old ≡ flat a → AllRead self.now.sense self.now.tree.now 1 squares.now t
            → bit_at rows.new ≡ flat (union a (squares_of 1 squares.now t)) }
    {
        for at in squares {
            put_cells(rows, at.row as usize, at.column as usize, self.four(at.bit));
        }
    }

    // The cells of some squares of side 2 ^ h put into rows; level by level, as the places of the children of one square do not wait for those of another.
    fn descend(&self, h: usize, squares: &[Square], rows: &mut [u64])
        requires { LevelAsked 1 h × SquaresAsked h squares.now × (length rows.old ≡ rows_words) }
        ensures { (a t : Cells) → bit_at rows.old ≡ flat a → AllRead self.now.sense self.now.tree.now h squares.now t
            → bit_at rows.new ≡ flat (union a (squares_of h squares.now t)) }
    {
        if h == 1 {
            self.leaves(squares, rows);
            return;
        }
        let mut next = [ROOT; 64];
        let m = self.spread(h, squares, &mut next);
        for some in next[..m].chunks(16) {
            self.descend(h - 1, some, rows);
        }
    }
}

// The pairs of a tree put into rows, read with a sense, by the ones before each block of BLOCK words.
fn load_by<const BLOCK: usize>(tree: &[u64], n: usize, sense: Sense, rows: &mut [u64])
    requires some { 0 < BLOCK }
    requires size { n ≤ max_records }
    requires short { length tree.now ≤ most_tree_words }
    requires room { length tree.now ≤ most_counts * BLOCK }
    requires rows_are { length rows.old ≡ rows_words }
    ensures { (a x : Cells) → IsSet n a → tree.now ≡ tree_words n a → bit_at rows.old ≡ flat x
        → bit_at rows.new ≡ flat (union x (sensed sense a)) }
{
    let mut before: [u32; COUNTS] = [0; COUNTS];
    count::<BLOCK>(tree, &mut before);
    let reading = Reading::<BLOCK> {
        tree,
        before: &before,
        sense,
    };
    reading.descend(k2::height(n), &[ROOT], rows);
}

// The same by counts for which there is room.
pub fn load(tree: &[u64], n: usize, sense: Sense, rows: &mut [u64])
    requires { (n ≤ max_records) × (length tree.now ≤ most_tree_words) × (length rows.old ≡ rows_words) }
    ensures { (a x : Cells) → IsSet n a → tree.now ≡ tree_words n a → bit_at rows.old ≡ flat x
        → bit_at rows.new ≡ flat (union x (sensed sense a)) }
{
    if COUNTS < tree.len() {
        load_by::<4>(tree, n, sense, rows);
    } else {
        load_by::<1>(tree, n, sense, rows);
    }
}
