// These functions read, set, count and find bits in slices of 64-bit words: bit p is bit p % 64 of word p / 64.
// What they promise is stated by `bit_at` and `ones_below` of crate k2, and by specs/BitSets.antt.
#![tactic(auto)]

ghost use Rattle.std.specs.Prelude.{◌≡◌, ◌+◌, ◌*◌, ◌/◌, ◌%◌, ◌^◌, ◌<◌, ◌≤◌, min, length, replicate, get_or};
ghost use Rattle.std.specs.Int.Count.{count_trailing_zeros};
ghost use Rattle.std.specs.Iterator.{at_most};
ghost use Rattle.k2.specs.Bits.{bit_at, ones_below};
ghost use Rattle.bits.specs.BitSets.{put, four_at, Next, TakesLowest};

// The places of the bits of a word that are set, lowest first: `left` is the word without those passed.
#[derive(Clone, Copy)]
pub struct SetBits {
    pub left: u64,
}

impl SetBits {
    pub fn of(word: u64) -> SetBits
        ensures { result.left ≡ «word» }
    {
        SetBits { left: word }
    }
}

impl Iterator for SetBits {
    type Item = usize;

    ghost next_gives = { λ s r t. TakesLowest s.left r t.left };

    ghost remaining = { λ s. at_most s.left };

    fn next(&mut self) -> Option<usize> {
        if self.left == 0 {
            return None;
        }
        let p = self.left.trailing_zeros() as usize;
        self.left &= self.left - 1;
        Some(p)
    }
}

// What is left of a word from its bit p on, the lowest of which is bit p; 0 past the end.
fn from_bit(words: &[u64], p: usize) -> u64
    ensures { result ≡ get_or words.now (p / 64) 0 / 2 ^ (p % 64) }
{
    match words.get(p / 64) {
        Some(word) => word >> (p % 64),
        None => 0,
    }
}

// The bit at p; 0 past the end.
pub fn bit(words: &[u64], p: usize) -> u64
    ensures { result ≡ bit_at words.now p }
{
    from_bit(words, p) % 2
}

// Set the bit at p.
pub fn set_bit(words: &mut [u64], p: usize)
    requires { p / 64 < length words.old }
    ensures { bit_at words.new ≡ put p 1 (bit_at words.old) }
{
    words[p / 64] |= 1 << (p % 64);
}

// The four bits from p on, a multiple of 4; 0 past the end.
pub fn four(words: &[u64], p: usize) -> u64
    requires { p % 4 ≡ 0 }
    ensures { result ≡ four_at (bit_at words.now) p }
{
    from_bit(words, p) % 16
}

// All words 0.
pub fn clear(words: &mut [u64])
    ensures { words.new ≡ replicate (length words.old) 0 }
{
    words.fill(0);
}

// How many of the bits 0 to p - 1 are set.
pub fn rank(words: &[u64], p: usize) -> usize
    ensures { result ≡ ones_below (bit_at words.now) p }
{
    let q = p / 64;
    if words.len() <= q {
        return ones(words);
    }
    ones(&words[..q]) + (words[q] % (1 << (p % 64))).count_ones() as usize
}

// How many bits are set.
fn ones(words: &[u64]) -> usize
    requires { length words.now * 64 < 2 ^ 64 }
    ensures { result ≡ ones_below (bit_at words.now) (length words.now * 64) }
{
    let mut n: usize = 0;
    for word in words {
        n += word.count_ones() as usize;
    }
    n
}

// The first bit that is set from `lo` on, or `end` if there is none before it; words of 0 are passed at once.
pub fn next(words: &[u64], lo: usize, end: usize) -> usize
    requires { lo ≤ end }
    ensures { Next (bit_at words.now) lo end result }
{
    let rest = from_bit(words, lo);
    if rest != 0 {
        return lowest_set(lo, rest, end);
    }
    let past = end / 64;
    for q in lo / 64 + 1..words.len().min(past + 1) {
        if words[q] != 0 {
            return lowest_set(q * 64, words[q], end);
        }
    }
    end
}

// The place of the lowest digit of w that is set, the lowest digit of all being at `at`; at most `end`.
fn lowest_set(at: usize, w: u64, end: usize) -> usize
    requires { at ≤ end }
    ensures { result ≡ min end (at + count_trailing_zeros 64 w) }
{
    at + (w.trailing_zeros() as usize).min(end - at)
}
