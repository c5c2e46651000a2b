// The register, and the words of its links, without the links that touch a record. What the first promises is stated in specs/Parting.antt.
ghost use Rattle.std.specs.Prelude.{◌≡◌, ◌/◌, ◌≤◌, length, take};
ghost use Rattle.links.specs.Parts.{label_unit};
ghost use Rattle.links.specs.Totals.{Lowered};
ghost use Rattle.register.specs.Parting.{filter, Without};
ghost use Rattle.register.specs.Apart.{apart_word, Kept};

use crate::Register;
use crate::state::ranged;
use links::{from_of, lower_total, to_of};

// Whether the link of a word does not touch the record.
fn stands_apart(word: u32, record: u16) -> bool
    ensures { result ≡ apart_word «record» «word» }
{
    if from_of(word) == record as u32 {
        return false;
    }
    to_of(word) != record as u32
}

// The totals with one link less of the label of a link's word.
fn lowered(totals: [u32; book::LABELS], word: u32) -> [u32; book::LABELS]
    ensures { Lowered («word» / label_unit) totals result }
{
    let mut less = totals;
    lower_total(&mut less, word);
    less
}

// The words of links that do not touch the record, copied to the front of a list; how many they are.
pub fn links_apart(links: &[u32], record: u16, to: &mut [u32]) -> usize
    requires { length links.now ≤ length to.old }
    ensures { (result ≤ length links.now) × (take result to.new ≡ filter (apart_word «record») links.now) }
{
    let mut kept = 0;
    for i in 0..links.len() {
        let word = links[i];
        to[kept] = word;
        if stands_apart(word, record) {
            kept += 1;
        }
    }
    kept
}

// What is left of a register's words: how many, and their totals.
#[derive(Clone, Copy)]
struct Rest {
    count: usize,
    totals: [u32; book::LABELS],
}

// The first count words without those that touch the record, moved to the front.
fn keep_apart(words: &mut [u32], count: usize, record: u16, totals: [u32; book::LABELS]) -> Rest
    requires { count ≤ length words.old }
    ensures { Kept «record» (take count words.old) totals result.totals words.new result.count }
{
    let mut left = totals;
    let mut kept = 0;
    for i in 0..count {
        let word = words[i];
        if stands_apart(word, record) {
            words[kept] = word;
            kept += 1;
        } else {
            let less = lowered(left, word);
            left = less;
        }
    }
    Rest {
        count: kept,
        totals: left,
    }
}

impl Register {
    // The register without the links that touch a record, in one pass: marks as they were, and nothing held. Contents out of range are left.
    pub fn without(self, record: u16) -> Register
        ensures { Without self «record» result }
    {
        if !ranged(self.n, self.count, self.top, self.held) {
            return self;
        }
        let mut links = self.links;
        let marks = self.marks;
        let before = self.totals;
        let rest = keep_apart(&mut links, self.count, record, before);
        let totals = rest.totals;
        Register {
            n: self.n,
            count: rest.count,
            links,
            marks,
            ring: [0; book::MAX_HELD],
            top: 0,
            held: 0,
            totals,
        }
    }
}
