// The depth of each record: 0 where it was not looked at yet, 1 where it is being looked at, else 2 more than the length of the longest run of links that
// ends at it. A record's depth comes from those of the records from which a link leads to it, which are looked at first; if one of them is being
// looked at already, the record leads to itself. Each link is looked at once.
ghost use Rattle.std.specs.Prelude.{◌≡◌, true, false, ℕ, ◌+◌, ◌<◌, ◌≤◌, max, length, get_or, replicate};
ghost use Rattle.book.specs.Causes.{max_records, max_links};
ghost use Rattle.generations.specs.Inner.{entered, Right, Leads, Visited, Visiting};

// The depth of a record that is being looked at, and of one to which no link leads.
const ENTERED: u32 = 1;

const SHALLOW: u32 = 2;

// The larger of a depth and one more than another.
fn deeper(depth: u32, other: u32) -> u32
    requires { other ≤ 1025 }
    ensures { result ≡ max depth (other + 1) }
{
    if depth <= other {
        return other + 1;
    }
    depth
}

// The depth of the record y, found if it was 0; that of a record being looked at says that some record leads to itself.
fn visit(links: &[u32], index: &[u16], y: usize, depths: &mut [u32]) -> u32
    requires { Visiting links.now index.now y depths.old }
    ensures { Visited links.now y depths.old depths.new result }
{
    let known = depths[y];
    if known != 0 {
        return known;
    }
    depths[y] = ENTERED;
    let mut depth = SHALLOW;
    let mut cursor = arcs::first_arc(index, y);
    while cursor != 0 {
        let j = cursor - 1;
        let from = (links[j] / links::FROM_UNIT % links::FROM_UNIT) as usize;
        let before = visit(links, index, from, depths);
        if before == ENTERED {
            return ENTERED;
        }
        depth = deeper(depth, before);
        cursor = arcs::next_arc(index, j);
    }
    depths[y] = depth;
    depth
}

// The depths of all records below n, unless some record leads to itself.
pub fn visit_all(links: &[u32], n: usize, depths: &mut [u32]) -> bool
    requires { (length links.now ≤ max_links) × (n ≤ max_records) × (depths.old ≡ replicate max_records 0) }
    ensures { (result ≡ true → Right links.now depths.new × ((y : ℕ) → y < n → entered < get_or depths.new y 0))
        × (result ≡ false → (z : ℕ) × Leads links.now z z) }
{
    let mut index = [0u16; arcs::INDEX_WORDS];
    arcs::index_by_reached(links, &mut index);
    for y in 0..n {
        if visit(links, &index, y, depths) == ENTERED {
            return false;
        }
    }
    true
}
