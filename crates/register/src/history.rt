// A history as words of 64 bits: one call by its word, and a whole list of them. What they promise is stated in specs/History.antt.
ghost use Rattle.std.specs.Prelude.{◌≡◌, ◌*◌, leb};
ghost use Rattle.book.specs.Causes.{max_records};
ghost use Rattle.register.specs.History.{kind_call, word_call, entry_calls, calls_of, closings};
ghost use Rattle.register.specs.Replaying.{EntrySteps, Replays};
ghost use Rattle.register.specs.Entries.{entry_of};
ghost use Rattle.register.specs.Drafts.{unclosed};
ghost use Rattle.register.specs.Closing.{Roomed};

use crate::state::{empty, number_of};
use crate::{Answer, Call, Outcome, Register};

// The kinds of calls, numbered as the program's frames are; closing up has no frame.
pub const ADD_KIND: u64 = 2;

pub const REMOVE_KIND: u64 = 3;

pub const LOCK_KIND: u64 = 4;

pub const UNLOCK_KIND: u64 = 5;

pub const UNDO_KIND: u64 = 6;

pub const WITHDRAW_KIND: u64 = 10;

pub const REINSTATE_KIND: u64 = 11;

pub const CLOSE_KIND: u64 = 12;

// A call's word is its kind, from or the record, label and to, each times its unit. Records have 16 bits, labels 8.
const WORD_RECORDS: u64 = 65536;

const WORD_LABELS: u64 = 256;

const WORD_LABEL: u64 = WORD_RECORDS;

const WORD_FROM: u64 = WORD_LABEL * WORD_LABELS;

const WORD_KIND: u64 = WORD_FROM * WORD_RECORDS;

// What a kind and arguments ask for: a call, or none.
#[derive(Clone, Copy)]
pub enum Entry {
    Call(Call),
    NoCall,
}

// The call of a kind; of a record alone, `from` is the record.
pub fn entry_of(kind: u64, from: u16, label: u8, to: u16) -> Entry
    ensures { entry_of result ≡ kind_call «kind» from label to }
{
    match kind {
        ADD_KIND => Entry::Call(Call::Add(from, label, to)),
        REMOVE_KIND => Entry::Call(Call::Remove(from, label, to)),
        LOCK_KIND => Entry::Call(Call::Lock(from)),
        UNLOCK_KIND => Entry::Call(Call::Unlock(from)),
        UNDO_KIND => Entry::Call(Call::Undo),
        WITHDRAW_KIND => Entry::Call(Call::Withdraw(from)),
        REINSTATE_KIND => Entry::Call(Call::Reinstate(from)),
        _ => Entry::NoCall,
    }
}

// The edit or undo of a word; a closing up is none.
pub fn entry_at(word: u64) -> Entry
    ensures { entry_of result ≡ unclosed (word_call «word») }
{
    let from = (word / WORD_FROM % WORD_RECORDS) as u16;
    let label = (word / WORD_LABEL % WORD_LABELS) as u8;
    let to = (word % WORD_RECORDS) as u16;
    entry_of(word / WORD_KIND, from, label, to)
}

// How many of the words of a list a closing up uses that is lent so many: no more than a register has records, and no more than there are.
fn room_for(room: u64, length: usize) -> usize
    ensures { Roomed room length result }
{
    if (book::MAX_RECORDS as u64) < room {
        if length < book::MAX_RECORDS {
            return length;
        }
        return book::MAX_RECORDS;
    }
    if length < room as usize {
        return length;
    }
    room as usize
}

// How many words of numbers a word of a history has: as many as a register has records for a closing up, else none.
fn list_words(word: u64) -> usize
    ensures { result ≡ max_records * closings (entry_calls (word_call «word»)) }
{
    if word / WORD_KIND == CLOSE_KIND {
        return book::MAX_RECORDS;
    }
    0
}

// Whether so many words are enough for the closings up among the words of a history.
fn lists_fit(words: &[u64], length: usize) -> bool
    ensures { result ≡ leb (max_records * closings (calls_of words.now)) length }
{
    let mut left = length;
    for i in 0..words.len() {
        let need = list_words(words[i]);
        if left < need {
            return false;
        }
        left = left - need;
    }
    true
}

impl Register {
    // Any call, by its word; a kind that does not exist gives 15. A closing up has the front of numbers for its list.
    pub fn step(self, word: u64, numbers: &mut [u16]) -> Outcome
        ensures { EntrySteps self (word_call «word») (record { before = numbers.old; after = numbers.new }) result }
    {
        if word / WORD_KIND == CLOSE_KIND {
            let room = room_for(word % WORD_KIND, numbers.len());
            return self.close_up(&mut numbers[..room]);
        }
        let entry = entry_at(word);
        match entry {
            Entry::Call(call) => self.apply(call),
            Entry::NoCall => Outcome {
                register: self,
                answer: Answer::Refused(book::UNKNOWN_KIND),
            },
        }
    }
}

// A whole history on a fresh register of n records, as words: told takes the number of each answer, numbers the list of each closing up, with 1,024 words
// for each. A refused one hands back the register of no records.
pub fn replay(n: u16, words: &[u64], told: &mut [u32], numbers: &mut [u16]) -> Outcome
    ensures { Replays n words.now (record { before = told.old; after = told.new })
        (record { before = numbers.old; after = numbers.new }) result }
{
    let opened = Register::fresh(n);
    let answer = opened.answer;
    let mut register = opened.register;
    if number_of(answer) != 0 {
        return Outcome {
            register,
            answer: Answer::Refused(book::BAD_SIZE),
        };
    }
    if told.len() < words.len() {
        return Outcome {
            register: empty(0),
            answer: Answer::Refused(book::SHORT_WORK),
        };
    }
    if !lists_fit(words, numbers.len()) {
        return Outcome {
            register: empty(0),
            answer: Answer::Refused(book::SHORT_WORK),
        };
    }
    let mut at = 0;
    for i in 0..words.len() {
        let word = words[i];
        let out = register.step(word, &mut numbers[at..]);
        let answer = out.answer;
        told[i] = number_of(answer);
        register = out.register;
        at += list_words(word);
    }
    Outcome {
        register,
        answer: Answer::Done,
    }
}
