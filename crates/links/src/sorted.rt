// Ascending words in the front of an array: a place found by halving, a word put in, a word cut out.
ghost use Rattle.std.specs.Prelude.{◌≡◌, ◌+◌, ◌-◌, ◌≤◌, ◌<◌, length, take};
ghost use Rattle.book.specs.Causes.{max_links};
ghost use Rattle.links.specs.Ascending.{put_at, cut_at, Seam, stands_at};

// The place of x among the first count words, by halving: the first whose word is not below x, where they ascend.
// A loop of its own: the library's `partition_point` promises nothing of words that do not ascend, and this a `Seam` of any words.
pub fn lower_bound(words: &[u32], count: usize, x: u32) -> usize
    requires { count ≤ length words.now }
    ensures { Seam x words.now count result }
{
    let mut low = 0;
    let mut high = count;
    while low < high {
        let middle = low + (high - low) / 2;
        if words[middle] < x {
            low = middle + 1;
        } else {
            high = middle;
        }
    }
    low
}

// Whether x stands at a place of the first count.
pub fn stands(words: &[u32], count: usize, at: usize, x: u32) -> bool
    requires { count ≤ length words.now }
    ensures { result ≡ stands_at words.now count at x }
{
    at < count && words[at] == x
}

// x at the place at, and what stood there and after it one place on.
pub fn put(a: &mut [u32], count: usize, at: usize, x: u32)
    requires { (at ≤ count) × (count < max_links) × (length a.old ≡ max_links) }
    ensures { take (count + 1) a.new ≡ put_at at x (take count a.old) }
{
    a.copy_within(at..count, at + 1);
    a[at] = x;
}

// What stands after the place at, one place down.
pub fn cut(a: &mut [u32], count: usize, at: usize)
    requires { (at < count) × (count ≤ max_links) × (length a.old ≡ max_links) }
    ensures { take (count - 1) a.new ≡ cut_at at (take count a.old) }
{
    a.copy_within(at + 1..count, at);
}
