// The register: links, marks and held edits by value. This file has its types and its numbers, and passes the rest on: state.rt a fresh register, edits.rt the
// calls that edit it, drafts.rt a list of them made all or none, closing.rt closing up its numbers, parting.rt the register without a record's links,
// history.rt a history as words, questions.rt what questions read, words.rt its words.
// What the calls promise is stated in specs/Calls.antt, specs/History.antt and specs/Questions.antt, about the plain book of the crate book.
#![tactic(auto)]

mod closing;
mod drafts;
mod edits;
mod history;
mod parting;
mod questions;
mod state;
mod words;

pub use history::{
    ADD_KIND, Entry, LOCK_KIND, REINSTATE_KIND, REMOVE_KIND, UNDO_KIND, UNLOCK_KIND, WITHDRAW_KIND,
    entry_of, replay,
};
pub use links::label_part;
pub use parting::links_apart;
pub use state::number_of;
pub use words::{
    STATE_WORDS, edit_in, fitting, has_mark, is_register, links_in, mark_in, marks_in, size_in,
    total_in, totals_in,
};

// The limits of the crate book, as wide as what is compared with them.
const MAX_RECORDS: u16 = book::MAX_RECORDS as u16;

const LABELS: u8 = book::LABELS as u8;

// A held word is the word of a link or a record, and one of these for its kind; an add has none.
const KIND_UNIT: u32 = 33554432;

const REMOVED: u32 = KIND_UNIT;

const LOCKED: u32 = 2 * KIND_UNIT;

const UNLOCKED: u32 = 3 * KIND_UNIT;

const WITHDRAWN: u32 = 4 * KIND_UNIT;

const REINSTATED: u32 = 5 * KIND_UNIT;

// A record's mark: in use and not locked, locked, or withdrawn.
const FREE_MARK: u32 = 0;

pub const LOCK_MARK: u32 = 1;

pub const WITHDRAWN_MARK: u32 = 2;

// The last place of the ring.
const LAST_HELD: usize = book::MAX_HELD - 1;

// n records, and the mark of each; the first count words of links, ascending, are the links present; of ring, the held words before top are the latest accepted
// edits; totals has the number of links of each label.
#[derive(Clone, Copy)]
pub struct Register {
    n: u16,
    count: usize,
    links: [u32; book::MAX_LINKS],
    marks: [u32; book::MAX_RECORDS],
    ring: [u32; book::MAX_HELD],
    top: usize,
    held: usize,
    totals: [u32; book::LABELS],
}

// The answer to a call: accepted, or refused with the number of its cause.
#[derive(Clone, Copy)]
pub enum Answer {
    Done,
    Refused(u32),
}

// An edit or undo. A link's parts are from, label and to.
#[derive(Clone, Copy)]
pub enum Call {
    Add(u16, u8, u16),
    Remove(u16, u8, u16),
    Lock(u16),
    Unlock(u16),
    Withdraw(u16),
    Reinstate(u16),
    Undo,
}

// What every call that makes or edits a register hands back.
#[derive(Clone, Copy)]
pub struct Outcome {
    pub register: Register,
    pub answer: Answer,
}

// The answer to a draft: every call made, or none, with the place of the first that is refused and its number.
#[derive(Clone, Copy)]
pub enum DraftAnswer {
    Made,
    Refused(usize, u32),
}

// What a draft hands back.
#[derive(Clone, Copy)]
pub struct Applied {
    pub register: Register,
    pub answer: DraftAnswer,
}

// The links of a register, as the first count of words.
#[derive(Clone, Copy)]
pub struct Links {
    pub words: [u32; book::MAX_LINKS],
    pub count: usize,
}

// The counters of a register.
#[derive(Clone, Copy)]
struct Counters {
    n: u16,
    count: usize,
    top: usize,
    held: usize,
}

// What an edit of a register's arrays hands back beside them.
#[derive(Clone, Copy)]
struct Edited {
    counters: Counters,
    answer: Answer,
}

// A link put in or taken out.
#[derive(Clone, Copy)]
struct Linking {
    from: u16,
    label: u8,
    to: u16,
    adds: bool,
}

// A change of a record's mark: from which to which; the causes if the record has the second already, and if it has another; and what is held for it.
#[derive(Clone, Copy)]
struct Marking {
    from: u32,
    to: u32,
    already: u32,
    barred: u32,
    kind: u32,
}

const LOCKING: Marking = Marking {
    from: FREE_MARK,
    to: LOCK_MARK,
    already: book::ALREADY,
    barred: book::WITHDRAWN_RECORD,
    kind: LOCKED,
};

const UNLOCKING: Marking = Marking {
    from: LOCK_MARK,
    to: FREE_MARK,
    already: book::MISSING,
    barred: book::WITHDRAWN_RECORD,
    kind: UNLOCKED,
};

const WITHDRAWING: Marking = Marking {
    from: FREE_MARK,
    to: WITHDRAWN_MARK,
    already: book::ALREADY,
    barred: book::LOCKED_END,
    kind: WITHDRAWN,
};

const REINSTATING: Marking = Marking {
    from: WITHDRAWN_MARK,
    to: FREE_MARK,
    already: book::MISSING,
    barred: book::MISSING,
    kind: REINSTATED,
};
