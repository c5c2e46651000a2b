// A register kept as words by its caller: n, count, top, held, 4,096 words of links, 256 of the ring, 1,024 of marks, 26 of totals, in the front of a slice
// of at least so many. Here alone stands where each of them is: what is read of such words without loading the register, and how it is loaded and stored.
// What that promises is stated in specs/Words.antt.
ghost use Rattle.std.specs.Prelude.{◌≡◌, false, ◌≤◌, length, take, drop, get_or};
ghost use Rattle.book.specs.Causes.{not_open, number};
ghost use Rattle.register.specs.Marks.{has_mark, Marked};
ghost use Rattle.register.specs.Calls.{call_of};
ghost use Rattle.register.specs.Questions.{Totals};
ghost use Rattle.register.specs.Inner.{KeepsOne, SizeIn, mark_in, Shown, Tested};
ghost use Rattle.register.specs.Words.{OfWords, Edits};
ghost use Rattle.register.specs.Inner.{Loads, Stores};
ghost use Rattle.answers.specs.declared.Counted.TheVariants.{Refused};

use crate::edits::edit;
use crate::state::{empty, ranged};
use crate::{Answer, Call, Counters, LABELS, Outcome, Register, WITHDRAWN_MARK};
use answers::{Counted, copy_u32};

// The places of the counters, and of the first link, the ring, the first mark and the first total; and how many words a register has.
const SIZE_AT: usize = 0;

const COUNT_AT: usize = 1;

const TOP_AT: usize = 2;

const HELD_AT: usize = 3;

const LINKS_AT: usize = 4;

const RING_AT: usize = LINKS_AT + book::MAX_LINKS;

const MARKS_AT: usize = RING_AT + book::MAX_HELD;

const TOTALS_AT: usize = MARKS_AT + book::MAX_RECORDS;

pub const STATE_WORDS: usize = TOTALS_AT + book::LABELS;

// The most records, as wide as a word.
const MOST_SIZE: u32 = book::MAX_RECORDS as u32;

// How many of some words there is room for.
pub fn fitting(words: &[u32], room: usize) -> usize
    ensures { (result ≤ length words.now) × (result ≤ room) × (take result words.now ≡ take room words.now) }
{
    if room < words.len() {
        return room;
    }
    words.len()
}

// A part of words, so many from a place on, or as many as there are.
fn part<'a>(words: &'a [u32], at: usize, count: usize) -> &'a [u32]
    ensures { result.now ≡ take count (drop at words.now) }
{
    let from = fitting(words, at);
    let rest = &words[from..];
    let first = fitting(rest, count);
    &rest[..first]
}

// The word at a place, 0 past the last.
fn word_at(words: &[u32], i: usize) -> u32
    ensures { result ≡ get_or words.now i 0 }
{
    if words.len() <= i {
        return 0;
    }
    words[i]
}

// Whether every word is a mark. It looks at each, with no way out before the last, so that several are looked at in one step.
fn marked(words: &[u32]) -> bool
    ensures { Tested (Marked words.now) result }
{
    let mut ok = true;
    for i in 0..words.len() {
        if WITHDRAWN_MARK < words[i] {
            ok = false;
        }
    }
    ok
}

// Whether the front of words is a register's: as many as it has, counters in range, marks that are marks.
pub fn is_register(words: &[u32]) -> bool
    ensures { Tested (KeepsOne words.now) result }
{
    if words.len() < STATE_WORDS {
        return false;
    }
    if MOST_SIZE < words[SIZE_AT] {
        return false;
    }
    let n = words[SIZE_AT] as u16;
    let count = words[COUNT_AT] as usize;
    let top = words[TOP_AT] as usize;
    let held = words[HELD_AT] as usize;
    if !ranged(n, count, top, held) {
        return false;
    }
    marked(&words[MARKS_AT..TOTALS_AT])
}

// ---- what is read of words without loading the register

// The number of records; 0 of words that are no register's.
pub fn size_in(words: &[u32]) -> u16
    ensures { SizeIn words.now result }
{
    if !is_register(words) {
        return 0;
    }
    words[SIZE_AT] as u16
}

// The mark of a record, which is looked for among any words.
pub fn mark_in(words: &[u32], record: u16) -> u32
    ensures { result ≡ mark_in words.now «record» }
{
    word_at(part(words, MARKS_AT, book::MAX_RECORDS), record as usize)
}

// Whether a record has a mark; none has of words that are no register's.
pub fn has_mark(words: &[u32], record: u16, mark: u32) -> bool
    ensures { OfWords words.now (λ r u. u ≡ has_mark mark r.marks «record») false result }
{
    if !is_register(words) {
        return false;
    }
    mark_in(words, record) == mark
}

// The number of links of a label: 16 of words that are no register's, then 3 for a label above 25.
pub fn total_in(words: &[u32], label: u8) -> Counted
    ensures { OfWords words.now (λ r. Totals r label) (Refused (number not_open)) result }
{
    if !is_register(words) {
        return Counted::Refused(book::NOT_OPEN);
    }
    if LABELS <= label {
        return Counted::Refused(book::BAD_LABEL);
    }
    let kept = words[TOTALS_AT + label as usize];
    Counted::Count(kept as usize)
}

// The links of a register, its marks of the records that there are, its totals: the words themselves; of other words some part of them.
pub fn links_in<'a>(words: &'a [u32]) -> &'a [u32]
    ensures { Shown words.now (λ r. take r.count r.links) result.now }
{
    let count = word_at(words, COUNT_AT) as usize;
    part(words, LINKS_AT, count)
}

pub fn marks_in<'a>(words: &'a [u32]) -> &'a [u32]
    ensures { Shown words.now (λ r. take r.n r.marks) result.now }
{
    let n = word_at(words, SIZE_AT) as usize;
    part(words, MARKS_AT, n)
}

pub fn totals_in<'a>(words: &'a [u32]) -> &'a [u32]
    ensures { Shown words.now (λ r. r.totals) result.now }
{
    part(words, TOTALS_AT, book::LABELS)
}

// ---- edited in place

// An edit or undo of the register whose words these are, by its number; 16 for words that are no register's. The links are edited where they stand, and the
// rest in copies, which are put back if it is accepted.
pub fn edit_in(words: &mut [u32], call: Call) -> u32
    ensures { Edits (call_of call) words.old words.new result }
{
    if !is_register(words) {
        return book::NOT_OPEN;
    }
    let mut ring: [u32; book::MAX_HELD] = [0; book::MAX_HELD];
    copy_u32(&words[RING_AT..MARKS_AT], &mut ring, 0);
    let mut marks: [u32; book::MAX_RECORDS] = [0; book::MAX_RECORDS];
    copy_u32(&words[MARKS_AT..TOTALS_AT], &mut marks, 0);
    let mut totals: [u32; book::LABELS] = [0; book::LABELS];
    copy_u32(&words[TOTALS_AT..STATE_WORDS], &mut totals, 0);
    let counters = Counters {
        n: words[SIZE_AT] as u16,
        count: words[COUNT_AT] as usize,
        top: words[TOP_AT] as usize,
        held: words[HELD_AT] as usize,
    };
    let links = &mut words[LINKS_AT..RING_AT];
    let edited = edit(counters, links, &mut marks, &mut ring, &mut totals, call);
    let answer = edited.answer;
    match answer {
        Answer::Refused(number) => number,
        Answer::Done => {
            let after = edited.counters;
            let numbers: [u32; LINKS_AT] = [
                after.n as u32,
                after.count as u32,
                after.top as u32,
                after.held as u32,
            ];
            copy_u32(&numbers, words, SIZE_AT);
            copy_u32(&ring, words, RING_AT);
            copy_u32(&marks, words, MARKS_AT);
            copy_u32(&totals, words, TOTALS_AT);
            0
        }
    }
}

// ---- loaded and stored

impl Register {
    // The register of the words; words that are no register's are refused with 16, and the register handed back has no records.
    pub fn load(words: &[u32]) -> Outcome
        ensures { Loads words.now result }
    {
        if !is_register(words) {
            return Outcome {
                register: empty(0),
                answer: Answer::Refused(book::NOT_OPEN),
            };
        }
        let mut links: [u32; book::MAX_LINKS] = [0; book::MAX_LINKS];
        copy_u32(&words[LINKS_AT..RING_AT], &mut links, 0);
        let mut ring: [u32; book::MAX_HELD] = [0; book::MAX_HELD];
        copy_u32(&words[RING_AT..MARKS_AT], &mut ring, 0);
        let mut marks: [u32; book::MAX_RECORDS] = [0; book::MAX_RECORDS];
        copy_u32(&words[MARKS_AT..TOTALS_AT], &mut marks, 0);
        let mut totals: [u32; book::LABELS] = [0; book::LABELS];
        copy_u32(&words[TOTALS_AT..STATE_WORDS], &mut totals, 0);
        Outcome {
            register: Register {
                n: words[SIZE_AT] as u16,
                count: words[COUNT_AT] as usize,
                links,
                marks,
                ring,
                top: words[TOP_AT] as usize,
                held: words[HELD_AT] as usize,
                totals,
            },
            answer: Answer::Done,
        }
    }

    // The register's words in the front of a slice; false, and nothing written, if its counters or marks are out of range or the
    // slice is shorter than its words.
    pub fn store(self, words: &mut [u32]) -> bool
        ensures { Stores self words.old words.new result }
    {
        if words.len() < STATE_WORDS {
            return false;
        }
        if !ranged(self.n, self.count, self.top, self.held) {
            return false;
        }
        let marks = self.marks;
        if !marked(&marks) {
            return false;
        }
        let numbers: [u32; LINKS_AT] = [
            self.n as u32,
            self.count as u32,
            self.top as u32,
            self.held as u32,
        ];
        copy_u32(&numbers, words, SIZE_AT);
        copy_u32(&self.links, words, LINKS_AT);
        copy_u32(&self.ring, words, RING_AT);
        copy_u32(&marks, words, MARKS_AT);
        copy_u32(&self.totals, words, TOTALS_AT);
        true
    }
}
