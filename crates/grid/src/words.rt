// These functions work on one word: they find its lowest bit, and its ones in turn, and put a word into another.
ghost use Rattle.std.specs.Prelude.{◌≡◌, ℕ, ◌+◌, ◌-◌, ◌*◌, ◌≤◌, ◌<◌, ◌≢◌, max, min, ltb, length, MatchOption};
ghost use Rattle.std.specs.Iterator.{at_most};
ghost use Rattle.book.specs.Basics.{pick};
ghost use Rattle.k2.specs.Bits.{digit};
ghost use Rattle.grid.specs.Steps.{low, Lowest, One, columns};

// The lowest bit of a word; 64 if it has none.
pub fn lowest(word: u64) -> usize
    ensures place { result ≡ low word }
    ensures first { Lowest (digit word) 0 64 result }
    ensures some { word ≢ 0 → result < 64 }
{
    u64::trailing_zeros(word) as usize
}

// The places of the ones of a word below an end, ascending.
#[derive(Clone, Copy)]
pub struct Ones {
    left: u64,
    end: usize,
    ghost within_word: { end ≤ 64 },
}

impl Ones {
    pub fn of(word: u64, end: usize) -> Ones
        requires { end ≤ 64 }
        ensures { (result.left ≡ word) × (result.end ≡ end) }
    {
        Ones { left: word, end }
    }
}

impl Iterator for Ones {
    type Item = usize;

    ghost next_gives = { λ s r t. (t.end ≡ s.end) × MatchOption r (s.end ≤ low s.left) (λ k. One s.left s.end k t.left) };

    ghost remaining = { λ s. at_most (s.end - low s.left) };

    fn next(&mut self) -> Option<usize> {
        let k = lowest(self.left);
        if self.end <= k {
            return None;
        }
        self.left &= self.left - 1;
        Some(k)
    }
}

// How many bits a word has.
pub fn count(word: u64) -> usize
    ensures { (result ≤ 64) × ((at : ℕ) → result ≡ length (columns (digit word) at 64)) }
{
    u64::count_ones(word) as usize
}

// Word c of a row with the mask, the word v put in.
pub fn join(mask: u16, c: usize, old: u64, v: u64) -> u64
    requires { c < 16 }
    ensures { (j : ℕ) → digit result j ≡ max (min (digit mask c) (digit old j)) (digit v j) }
{
    if (mask >> c) % 2 == 1 {
        return old | v;
    }
    v
}

// Of word c of a row, the bits of the columns below n.
pub fn cut(word: u64, c: usize, n: usize) -> u64
    requires { c < 16 }
    ensures { (j : ℕ) → j < 64 → digit result j ≡ pick (ltb (c * 64 + j) n) (digit word j) 0 }
{
    let at = c * 64;
    if n <= at {
        return 0;
    }
    if at + 64 <= n {
        return word;
    }
    word % (1 << (n - at))
}
