// The crossings of a sheet's links as arcs, and an index that leads from a record to its arcs.
#![tactic(auto)]

ghost use Rattle.std.specs.Prelude.{◌≡◌, ℕ, ◌+◌, ◌*◌, ◌<◌, ◌≤◌, length, get_or};
ghost use Rattle.book.specs.Causes.{max_records, max_links};
ghost use Rattle.arcs.specs.Arcs.{max_arcs, arc_of, arc_from, arc_to, Crossings, NoUse, PutIf};
ghost use Rattle.arcs.specs.Index.{key_at, first_arc, next_arc, Indexed, Indexing};

// An arc's word is its letter, the record left and the record reached, each times its unit; a link's word has its label in the letter's place. A set of labels
// has room for so many.
pub const RECORD_UNIT: u32 = links::FROM_UNIT;

pub const LETTER_UNIT: u32 = links::LABEL_UNIT;

const LABEL_SETS: u32 = 32;

// Each link may be crossed in two senses.
pub const MAX_ARCS: usize = 2 * book::MAX_LINKS;

// An index has a word for each record, then one for each arc.
pub const INDEX_WORDS: usize = book::MAX_RECORDS + MAX_ARCS;

// Few arcs, for which words and an index are cleared in a moment.
pub const FEW_ARCS: usize = 1024;

pub const FEW_INDEX_WORDS: usize = book::MAX_RECORDS + FEW_ARCS;

// The word of a link crossed, forward or against its sense.
fn arc(link: u32, sense: u32) -> u32
    ensures { result ≡ arc_of link sense }
{
    let label = link / LETTER_UNIT % LABEL_SETS;
    let from = link / RECORD_UNIT % RECORD_UNIT;
    let to = link % RECORD_UNIT;
    if sense == 0 {
        return (label * 2 * RECORD_UNIT + from) * RECORD_UNIT + to;
    }
    ((label * 2 + 1) * RECORD_UNIT + to) * RECORD_UNIT + from
}

// The arc at the place `count`, if its letter enters a state. How many are there now?
fn put(arcs: &mut [u32], count: usize, arc: u32, states: u64) -> usize
    requires { count < length arcs.old }
    ensures { PutIf states arc arcs.old count arcs.new result }
{
    if states == 0 {
        return count;
    }
    arcs[count] = arc;
    count + 1
}

// The first link from the place `at` on of which a letter enters a state: its place, or the number of links if there is none.
fn next_of_use(links: &[u32], enter: &[u64], at: usize) -> usize
    requires { (at ≤ length links.now) × (length enter.now ≡ 64) }
    ensures { (at ≤ result) × (result ≤ length links.now) × NoUse links.now enter.now at result }
{
    for i in at..links.len() {
        let letter = (links[i] / LETTER_UNIT % LABEL_SETS * 2) as usize;
        if enter[letter] != 0 {
            return i;
        }
        if enter[letter + 1] != 0 {
            return i;
        }
    }
    links.len()
}

// The crossings that can be of use, into `arcs`: each link in each sense whose letter enters a state. How many are they?
pub fn arcs_of(links: &[u32], enter: &[u64], arcs: &mut [u32]) -> usize
    requires { (length links.now ≤ max_links) × (length enter.now ≡ 64) × (2 * length links.now ≤ length arcs.old) }
    ensures { (result ≤ 2 * length links.now) × Crossings links.now enter.now
        (2 * length links.now) arcs.new result }
{
    let mut count = 0;
    let mut i = next_of_use(links, enter, 0);
    while i < links.len() {
        let link = links[i];
        let letter = (link / LETTER_UNIT % LABEL_SETS * 2) as usize;
        count = put(arcs, count, arc(link, 0), enter[letter]);
        count = put(arcs, count, arc(link, 1), enter[letter + 1]);
        i = next_of_use(links, enter, i + 1);
    }
    count
}

// The lowest bit, in an arc's word, of the record reached and of the record left.
const REACHED: u32 = 0;

const LEFT: u32 = 10;

// The arcs by the record whose bits begin at `key`, into an index of zeros: at r the last arc of the record r, at 1,024 + j the one before arc j of the
// same record, each time its number and 1, or 0 for none.
fn index_of(arcs: &[u32], key: u32, index: &mut [u16])
    requires { Indexing arcs.now key index.old }
    ensures { Indexed (key_at arcs.now key) (length arcs.now) index.new }
{
    for j in 0..arcs.len() {
        let record = ((arcs[j] >> key) % RECORD_UNIT) as usize;
        index[book::MAX_RECORDS + j] = index[record];
        index[record] = (j + 1) as u16;
    }
}

// The arcs by the record reached.
pub fn index_by_reached(arcs: &[u32], index: &mut [u16])
    requires { (length arcs.now ≤ max_arcs) × (max_records + length arcs.now ≤ length index.old) × ((r : ℕ) → get_or index.old r 0 ≡ 0) }
    ensures { Indexed (arc_to arcs.now) (length arcs.now) index.new }
{
    index_of(arcs, REACHED, index);
}

// The arcs by the record left.
pub fn index_by_left(arcs: &[u32], index: &mut [u16])
    requires { (length arcs.now ≤ max_arcs) × (max_records + length arcs.now ≤ length index.old) × ((r : ℕ) → get_or index.old r 0 ≡ 0) }
    ensures { Indexed (arc_from arcs.now) (length arcs.now) index.new }
{
    index_of(arcs, LEFT, index);
}

// The first arc of the record r: its number and 1, or 0 for none.
pub fn first_arc(index: &[u16], r: usize) -> usize
    requires { r < length index.now }
    ensures { result ≡ first_arc index.now r }
{
    index[r] as usize
}

// The arc after arc j of the same record: its number and 1, or 0 for none.
pub fn next_arc(index: &[u16], j: usize) -> usize
    requires { (max_records + j < length index.now) × (j < max_arcs) }
    ensures { result ≡ next_arc index.now j }
{
    index[book::MAX_RECORDS + j] as usize
}
