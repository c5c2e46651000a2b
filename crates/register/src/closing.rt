// Closing up the numbers: the records in use are numbered from 0 in their old order, and links and locks follow them. What it promises is stated in
// specs/Calls.antt, what the functions here promise one another in specs/Closing.antt.
ghost use Rattle.std.specs.Prelude.{◌≡◌, map, ◌++◌, ◌≤◌, length, take, drop};
ghost use Rattle.book.specs.Basics.{over};
ghost use Rattle.book.specs.Causes.{max_records};
ghost use Rattle.book.specs.Book.{new_numbers};
ghost use Rattle.register.specs.Calls.{Closes};
ghost use Rattle.register.specs.Closing.{in_use, new_of, renamed_word, Ranked, Small, Moved};

use crate::state::ranged;
use crate::{Answer, FREE_MARK, LOCK_MARK, Outcome, Register, WITHDRAWN_MARK};
use links::{FROM_UNIT, from_of, label_of, to_of};

// What stands in the list for the new number of a withdrawn record.
pub const NO_NUMBER: u16 = 65535;

// A rank for each record, and one more for all of them.
const RANKS: usize = book::MAX_RECORDS + 1;

// How many of the records below each are in use: the new number of one that is; and in the last place how many there are in all.
fn ranks(marks: &[u32]) -> [u32; RANKS]
    requires { length marks.now ≡ max_records }
    ensures { Ranked marks.now result }
{
    let mut ranks: [u32; RANKS] = [0; RANKS];
    for i in 0..marks.len() {
        let mut next = ranks[i];
        if marks[i] != WITHDRAWN_MARK {
            next = next + 1;
        }
        ranks[i + 1] = next;
    }
    ranks
}

// The new number of each record below n, over the front of the list.
fn tell(marks: &[u32], ranks: &[u32], n: usize, numbers: &mut [u16])
    requires { (length marks.now ≡ max_records) × Ranked marks.now ranks.now
        × (max_records ≤ length ranks.now) × (n ≤ max_records) × (n ≤ length numbers.old) }
    ensures { numbers.new ≡ over (new_numbers (in_use marks.now) n) numbers.old }
{
    for i in 0..n {
        let mut number = NO_NUMBER;
        if marks[i] != WITHDRAWN_MARK {
            number = ranks[i] as u16;
        }
        numbers[i] = number;
    }
}

// A link's word with its records renamed.
fn renamed(word: u32, ranks: &[u32]) -> u32
    requires { Small ranks.now }
    ensures { result ≡ renamed_word (new_of ranks.now) «word» }
{
    let from = ranks[from_of(word) as usize];
    let to = ranks[to_of(word) as usize];
    (label_of(word) * FROM_UNIT + from) * FROM_UNIT + to
}

// The first count words with their records renamed.
fn rename(words: &mut [u32], count: usize, ranks: &[u32])
    requires { (count ≤ length words.old) × Small ranks.now }
    ensures { words.new ≡ map (renamed_word (new_of ranks.now)) (take count words.old) ++ drop count words.old }
{
    for i in 0..count {
        words[i] = renamed(words[i], ranks);
    }
}

// The locks of the first n records, each at its new number.
fn moved(marks: &[u32], ranks: &[u32], n: usize) -> [u32; book::MAX_RECORDS]
    requires { (n ≤ length marks.now) × (n ≤ max_records) × Small ranks.now }
    ensures { Moved marks.now ranks.now n result }
{
    let mut moved: [u32; book::MAX_RECORDS] = [FREE_MARK; book::MAX_RECORDS];
    for i in 0..n {
        if marks[i] == LOCK_MARK {
            moved[ranks[i] as usize] = LOCK_MARK;
        }
    }
    moved
}

impl Register {
    // The numbers closed up, and each old number's new one told: 21 with no record in use, then 13 if the list is shorter than the old n.
    pub fn close_up(self, numbers: &mut [u16]) -> Outcome
        ensures { Closes self numbers.old numbers.new result }
    {
        if !ranged(self.n, self.count, self.top, self.held) {
            return Outcome {
                register: self,
                answer: Answer::Refused(book::NOT_OPEN),
            };
        }
        let n = self.n as usize;
        let ranks = ranks(&self.marks);
        let left = ranks[n];
        if left == 0 {
            return Outcome {
                register: self,
                answer: Answer::Refused(book::NONE_IN_USE),
            };
        }
        if numbers.len() < n {
            return Outcome {
                register: self,
                answer: Answer::Refused(book::SHORT_LIST),
            };
        }
        tell(&self.marks, &ranks, n, numbers);
        let mut links = self.links;
        rename(&mut links, self.count, &ranks);
        Outcome {
            register: Register {
                n: left as u16,
                count: self.count,
                links,
                marks: moved(&self.marks, &ranks, n),
                ring: [0; book::MAX_HELD],
                top: 0,
                held: 0,
                totals: self.totals,
            },
            answer: Answer::Done,
        }
    }
}
