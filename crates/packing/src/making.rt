// Rows of bits packed into a k2-tree: the cells in the order of its last level, the levels above them, and the groups that are not empty.
ghost use Rattle.std.specs.Prelude.{◌≡◌, true, ℕ, ◌+◌, ◌*◌, ◌-◌, ◌/◌, ◌%◌, ◌^◌, ◌<◌, ◌≤◌, min, max, length, take, get_or};
ghost use Rattle.book.specs.Causes.{max_records};
ghost use Rattle.k2.specs.Sizes.{rows_words};
ghost use Rattle.k2.specs.Bits.{digit, bit_at, words_of};
ghost use Rattle.k2.specs.DigitLaws.{shifted};
ghost use Rattle.k2.specs.PairSets.{Cells, IsSet};
ghost use Rattle.k2.specs.Trees.{tree_bits, tree_unit, tree_words};
ghost use Rattle.k2.specs.Heap.{place, row_at, column_at, cells, any_four, compacted};
ghost use Rattle.bits.specs.BitSets.{none, either};
ghost use Rattle.rows.specs.Rows.{flat};
ghost use Rattle.packing.specs.Image.{Together, raised, above, set_four, blocks_to, swap_place, Heaped, Compacting};
ghost use Rattle.packing.specs.Image.{FillAsked, BlockAsked, EightAsked, PackAsked};

// The place of a row and a column among the cells of a square of side 2 ^ h.
fn morton_place(h: usize, x: usize, y: usize) -> usize
    requires { h ≤ 10 }
    ensures { (result ≡ place h (x % 2 ^ h) (y % 2 ^ h)) × (result < 4 ^ h) }
{
    let mut z = 0;
    let mut k = h;
    while 0 < k {
        k -= 1;
        z = z * 4 + (x >> k) % 2 * 2 + (y >> k) % 2;
    }
    z
}

// The bits that one of `count` words, `step` apart from word i on, has.
fn together(words: &[u64], i: usize, step: usize, count: usize) -> u64
    requires { (k : ℕ) → k < count → i + step * k < length words.now }
    ensures { (result ≡ 0 → (k : ℕ) → k < count → get_or words.now (i + step * k) 0 ≡ 0)
        × Together words.now i step count result }
{
    let mut w: u64 = 0;
    for k in 0..count {
        w = w | words[i + step * k];
    }
    w
}

// Eight bits from bit 8 * k on of each of eight words, 16 apart from word i on, as one word.
fn block(rows: &[u64], i: usize, k: usize) -> u64
    requires { (i + 112 < length rows.now) × (k < 8) }
    ensures { (j : ℕ) → j < 64 → digit result j ≡ digit (get_or rows.now (i + 16 * (j / 8)) 0) (8 * k + j % 8) }
{
    let mut v: u64 = 0;
    for r in 0..8 {
        v = v | (rows[i + 16 * r] >> (8 * k)) % 256 << (8 * r);
    }
    v
}

// The bits of w, those of the mask m exchanged with the bits k places above them.
fn swap(w: u64, k: u32, m: u64) -> u64
    requires { (k < 64) × ((j : ℕ) → digit m j ≡ 1 → (j + k < 64) × (digit m (j + k) ≡ 0)) }
    ensures { (j : ℕ) → j < 64 → digit result j ≡ digit w (swap_place k m j) }
{
    (w & !(m | (m << k))) | ((w & m) << k) | ((w >> k) & m)
}

// The bits of 8 x 8 cells, from row by row to the order of a tree's last level, which is Morton order: bits are exchanged by swaps under masks.
fn shuffle(w: u64) -> u64
    ensures { (j : ℕ) → j < 64 → digit result j ≡ digit w (8 * row_at 3 j + column_at 3 j) }
{
    let a = swap(w, 12, 0x0000_F0F0_0000_F0F0);
    let b = swap(a, 4, 0x00F0_00F0_00F0_00F0);
    swap(b, 2, 0x0C0C_0C0C_0C0C_0C0C)
}

// The bits of v put in from p on, beside what is there.
fn or_word(words: &mut [u64], p: usize, v: u64)
    requires { p / 64 + 1 < length words.old }
    ensures { bit_at words.new ≡ either (bit_at words.old) (shifted p v) }
{
    let q = p / 64;
    let k = p % 64;
    words[q] = words[q] | v << k;
    words[q + 1] = words[q + 1] | v >> 1 >> (63 - k);
}

// The cells of the block of 8 x 8 in row r and column c of blocks, put in from bit base on; `seen` are the bits that its rows have.
fn fill_block(rows: &[u64], seen: u64, r: usize, c: usize, g: usize, base: usize, heap: &mut [u64])
    requires { FillAsked g base rows.now heap.old × BlockAsked rows.now g r c seen }
    ensures { (a : Cells) → IsSet (2 ^ (g + 3)) a → bit_at rows.now ≡ flat a
        → bit_at heap.old ≡ raised base (cells (g + 3) (blocks_to (r * 128 + c) a))
        → bit_at heap.new ≡ raised base (cells (g + 3) (blocks_to (r * 128 + c + 1) a)) }
{
    if (seen >> (8 * (c % 8))) % 256 == 0 {
        return;
    }
    let v = block(rows, r * 128 + c / 8, c % 8);
    if v != 0 {
        let z = morton_place(g, r, c);
        or_word(heap, base + 64 * z, shuffle(v));
    }
}

// The cells of eight blocks from column c on, a multiple of 8; if all are empty they are passed at once.
fn fill_eight(rows: &[u64], r: usize, c: usize, g: usize, base: usize, heap: &mut [u64])
    requires { FillAsked g base rows.now heap.old × EightAsked g r c }
    ensures { (a : Cells) → IsSet (2 ^ (g + 3)) a → bit_at rows.now ≡ flat a
        → bit_at heap.old ≡ raised base (cells (g + 3) (blocks_to (r * 128 + c) a))
        → bit_at heap.new ≡ raised base (cells (g + 3) (blocks_to (r * 128 + c + 8) a)) }
{
    let seen = together(rows, r * 128 + c / 8, 16, 8);
    if seen != 0 {
        for k in 0..8 {
            fill_block(rows, seen, r, c + k, g, base, heap);
        }
    }
}

// The cells of rows put in from bit base on, by blocks of 8 x 8, 2 ^ g of them to a side.
fn fill(rows: &[u64], g: usize, base: usize, heap: &mut [u64])
    requires { FillAsked g base rows.now heap.old }
    ensures { (a : Cells) → IsSet (2 ^ (g + 3)) a → bit_at rows.now ≡ flat a → bit_at heap.old ≡ none
        → bit_at heap.new ≡ raised base (cells (g + 3) a) }
{
    let side: usize = 1 << g;
    for r in 0..side {
        let mut c = 0;
        while c < side {
            fill_eight(rows, r, c, g, base, heap);
            c += 8;
        }
    }
}

// The sixteen bits that tell which groups of four bits of a word are not all 0: the lowest bit of each group, then spread bits pressed together.
fn summary(w: u64) -> u64
    ensures { (j : ℕ) → digit result j ≡ any_four (digit w) (4 * j) }
{
    let a = w | w >> 1;
    let b = (a | a >> 2) & 0x1111_1111_1111_1111;
    let c = (b | b >> 3) & 0x0303_0303_0303_0303;
    let d = (c | c >> 6) & 0x000F_000F_000F_000F;
    let e = (d | d >> 12) & 0x0000_00FF_0000_00FF;
    (e | e >> 24) & 0xFFFF
}

// Are there four words from word i on, all 0?
fn all_zero(words: &[u64], i: usize) -> bool
    ensures { result ≡ true → (i + 4 ≤ length words.now) × ((k : ℕ) → i ≤ k → k < i + 4 → get_or words.now k 0 ≡ 0) }
{
    if words.len() < 4 {
        return false;
    }
    if words.len() - 4 < i {
        return false;
    }
    together(words, i, 1, 4) == 0
}

// The bits that tell of the groups of word i, which is not the first.
fn lift_word(heap: &mut [u64], i: usize)
    requires { (1 ≤ i) × (i < length heap.old) }
    ensures { (b : ℕ) (f : ℕ → ℕ) → Heaped b f → bit_at heap.old ≡ above (min b (16 * i - 1 + 16)) f
        → bit_at heap.new ≡ above (min b (16 * i - 1)) f }
{
    let w = heap[i];
    if w != 0 {
        or_word(heap, 16 * i - 1, summary(w));
    }
}

// The bits that tell of the groups of the first word, from the last group to the second.
fn lift_first(heap: &mut [u64])
    requires { 1 ≤ length heap.old }
    ensures { (b : ℕ) (f : ℕ → ℕ) → Heaped b f → bit_at heap.old ≡ above (min b 15) f → bit_at heap.new ≡ f }
{
    let mut q = 15;
    while 0 < q {
        if bits::four(heap, 4 * q) != 0 {
            bits::set_bit(heap, q - 1);
        }
        q -= 1;
    }
}

// The levels above the cells, from the last word to the first; four words of 0 are passed at once.
fn lift(heap: &mut [u64])
    requires { 1 ≤ length heap.old }
    ensures { (b : ℕ) (f : ℕ → ℕ) → Heaped b f → 4 * b + 4 ≤ 64 * length heap.old
        → bit_at heap.old ≡ above b f → bit_at heap.new ≡ f }
{
    let mut i = heap.len();
    while 1 < i {
        if 5 < i && all_zero(heap, i - 4) {
            i -= 4;
        } else {
            i -= 1;
            lift_word(heap, i);
        }
    }
    lift_first(heap);
}

// The four bits of v as group g.
fn set_four(words: &mut [u64], g: usize, v: u64)
    requires { (g / 16 < length words.old) × (v < 16) }
    ensures { bit_at words.new ≡ set_four g v (bit_at words.old) }
{
    let q = g / 16;
    let k = 4 * (g % 16);
    words[q] = words[q] & !(15 << k) | v << k;
}

// The groups of word i that are not all 0, put behind the g groups that are at the front.
fn compact_word(heap: &mut [u64], i: usize, g: usize) -> usize
    requires { (i < length heap.old) × (g ≤ 16 * i) }
    ensures { (result ≤ 16 * (i + 1)) × ((f : ℕ → ℕ) → Compacting f (16 * i) g heap.old → Compacting f (16 * (i + 1)) result heap.new) }
{
    let mut r = g;
    let mut w = heap[i];
    while w != 0 {
        let k = u64::trailing_zeros(w) / 4 * 4;
        set_four(heap, r, (w >> k) % 16);
        w = w >> k >> 4;
        r += 1;
    }
    r
}

// The bits behind group g, to the end of its word, are 0.
fn trim(heap: &mut [u64], g: usize)
    requires { g ≤ 16 * length heap.old }
    ensures { ((p : ℕ) → p < 4 * g → bit_at heap.new p ≡ bit_at heap.old p)
        × ((p : ℕ) → 4 * g ≤ p → p / 64 < (g + 15) / 16 → bit_at heap.new p ≡ 0) }
{
    let k = g % 16;
    if k != 0 {
        let q = g / 16;
        heap[q] = heap[q] % (1 << (4 * k));
    }
}

// The groups of four bits that are not all 0, in order; how many words they fill, the unused bits of the last being 0.
fn compact(heap: &mut [u64]) -> usize
    requires { length heap.old ≤ 21847 }
    ensures { (result ≤ length heap.old)
        × (take result heap.new ≡ words_of (compacted (bit_at heap.old) (16 * length heap.old))) }
{
    let mut g = 0;
    let mut i = 0;
    while i < heap.len() {
        if all_zero(heap, i) {
            i += 4;
        } else {
            g = compact_word(heap, i, g);
            i += 1;
        }
    }
    trim(heap, g);
    (g + 15) / 16
}

// Blocks of 8 x 8 have three levels: how many are above them.
fn block_levels(h: usize) -> usize
    requires { h ≤ 10 }
    ensures { (result ≤ 7) × (result + 3 ≡ max h 3) }
{
    if h < 3 {
        return 0;
    }
    h - 3
}

// The tree of rows, made in place; how many words it has.
fn pack_part(rows: &[u64], h: usize, heap: &mut [u64]) -> usize
    requires { PackAsked h rows.now heap.old }
    ensures { (result ≤ length heap.old) × ((a : Cells) → IsSet (2 ^ h) a → bit_at rows.now ≡ flat a
        → take result heap.new ≡ words_of (tree_bits h a)) }
{
    bits::clear(heap);
    fill(rows, block_levels(h), k2::full_size(h - 1), heap);
    lift(heap);
    compact(heap)
}

// The tree of rows, at the front of out; how many words it has. D + 1 words of out are written.
pub fn pack(rows: &[u64], n: usize, out: &mut [u64]) -> usize
    requires { (length rows.now ≡ rows_words) × (n ≤ max_records) × (tree_unit n + 1 ≤ length out.old) }
    ensures { (result ≤ length out.old) × ((a : Cells) → IsSet n a → bit_at rows.now ≡ flat a
        → (take result out.new ≡ tree_words n a) × (result ≤ tree_unit n)) }
{
    let h = k2::height(n);
    let end = k2::tree_unit(n) + 1;
    pack_part(rows, h, &mut out[..end])
}
