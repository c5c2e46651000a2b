// The calls that edit a register: add, remove, lock, unlock, withdraw, reinstate, undo, and apply for any of them. All are one edit of the register's arrays
// in place; a refused one leaves them. What they promise is stated in specs/Calls.antt.
ghost use Rattle.std.specs.Prelude.{◌≡◌, true, List, ℕ, ◌*◌, ◌≤◌, ◌<◌, length, take, set, eqb};
ghost use Rattle.book.specs.Basics.{without};
ghost use Rattle.book.specs.Causes.{first_number, max_records, max_links, max_held, labels};
ghost use Rattle.book.specs.Book.{Edit, add, remove, lock, unlock, withdraw, reinstate, edit, undo};
ghost use Rattle.links.specs.Ascending.{insert, Seam, stands_at};
ghost use Rattle.register.specs.Packed.{kind_unit};
ghost use Rattle.register.specs.Calls.{call_of, Steps};
ghost use Rattle.register.specs.declared.Answer.TheVariants.{Done, Refused};
ghost use Rattle.register.specs.Inner.{link_causes, register_of, outcome_of, AsLong, Whole, relinks, Holding, Changed, TakenBack, Remarks};

use crate::state::ranged;
use crate::{
    Answer, Call, Counters, Edited, FREE_MARK, KIND_UNIT, LABELS, LAST_HELD, LOCK_MARK, LOCKING,
    Linking, Marking, Outcome, REINSTATING, REMOVED, Register, UNLOCKING, WITHDRAWING,
    WITHDRAWN_MARK,
};
use links::{cut, link_word, lower_bound, lower_total, put, raise_total, stands, touched};

// The first cause against the ends and the label of a link, or 0.
fn link_cause(n: u16, marks: &[u32], from: u16, label: u8, to: u16) -> u32
    requires { n ≤ length marks.now }
    ensures { result ≡ first_number (link_causes n marks.now (record { from = from; label = label; to = to })) }
{
    if n <= from {
        return book::NO_RECORD;
    }
    if n <= to {
        return book::NO_RECORD;
    }
    if marks[from as usize] == WITHDRAWN_MARK {
        return book::WITHDRAWN_RECORD;
    }
    if marks[to as usize] == WITHDRAWN_MARK {
        return book::WITHDRAWN_RECORD;
    }
    if LABELS <= label {
        return book::BAD_LABEL;
    }
    if marks[from as usize] == LOCK_MARK {
        return book::LOCKED_END;
    }
    if marks[to as usize] == LOCK_MARK {
        return book::LOCKED_END;
    }
    0
}

// A refused edit: the counters as they were, and the number of the cause.
fn refused(counters: Counters, number: u32) -> Edited
    ensures { result ≡ record { counters = counters; answer = Refused number } }
{
    Edited {
        counters,
        answer: Answer::Refused(number),
    }
}

// An accepted edit: its word is held, in the place of the oldest where 256 are.
fn hold(counters: Counters, ring: &mut [u32], word: u32) -> Edited
    requires { (counters.top < max_held) × (counters.held ≤ max_held) × (length ring.old ≡ max_held) }
    ensures { (result.answer ≡ Done) × ((links marks totals : List ℕ) → Holding (register_of counters links marks ring.old totals) word
        (register_of result.counters links marks ring.new totals)) }
{
    let top = counters.top;
    let mut next = top + 1;
    if next == book::MAX_HELD {
        next = 0;
    }
    ring[top] = word;
    let mut held = counters.held;
    if held < book::MAX_HELD {
        held += 1;
    }
    let mut changed = counters;
    changed.top = next;
    changed.held = held;
    Edited {
        counters: changed,
        answer: Answer::Done, // and it is held
    }
}

// The link of a word put in at its place, and its label's total with it.
fn put_in(counters: Counters, links: &mut [u32], totals: &mut [u32], at: usize, x: u32) -> Counters
    requires { (counters.count < max_links) × (length links.old ≡ max_links) × (length totals.old ≡ labels) × Seam x links.old counters.count at }
    ensures { (marks ring : List ℕ) → Changed (register_of counters links.old marks ring totals.old)
        (record { links = insert x (take counters.count links.old); marks = marks })
        (register_of result links.new marks ring totals.new) }
{
    let mut changed = counters;
    put(links, changed.count, at, x);
    raise_total(totals, x);
    changed.count += 1;
    changed
}

// The link of a word taken out where it stands, and of its label's total.
fn cut_out(counters: Counters, links: &mut [u32], totals: &mut [u32], at: usize, x: u32) -> Counters
    requires { (counters.count ≤ max_links) × (length links.old ≡ max_links) × (length totals.old ≡ labels) × Seam x links.old counters.count at
        × (stands_at links.old counters.count at x ≡ true) }
    ensures { (marks ring : List ℕ) → Changed (register_of counters links.old marks ring totals.old)
        (record { links = without eqb x (take counters.count links.old); marks = marks })
        (register_of result links.new marks ring totals.new) }
{
    let mut changed = counters;
    cut(links, changed.count, at);
    lower_total(totals, x);
    changed.count -= 1;
    changed
}

// A record's mark; a number that is no record's is passed over.
fn set_mark(counters: Counters, marks: &mut [u32], x: u32, mark: u32) -> Counters
    requires { (counters.count ≤ max_links) × (length marks.old ≡ max_records) }
    ensures { (links ring totals : List ℕ) → Changed (register_of counters links marks.old ring totals)
        (record { links = take counters.count links; marks = set marks.old x mark }) (register_of result links marks.new ring totals) }
{
    let i = x as usize;
    if i < book::MAX_RECORDS {
        marks[i] = mark;
    }
    counters
}

// An edit taken back, by its kind; what is of no kind is left.
fn taken_back(
    counters: Counters,
    links: &mut [u32],
    marks: &mut [u32],
    totals: &mut [u32],
    kind: u32,
    x: u32,
) -> Counters
    requires { (counters.count ≤ max_links) × (length links.old ≡ max_links) × (length marks.old ≡ max_records) × (length totals.old ≡ labels) }
    ensures { (ring : List ℕ) → TakenBack (register_of counters links.old marks.old ring totals.old) «kind» x
        (register_of result links.new marks.new ring totals.new) }
{
    let count = counters.count;
    match kind {
        0 => {
            let at = lower_bound(links, count, x);
            if !stands(links, count, at, x) {
                return counters;
            }
            cut_out(counters, links, totals, at, x)
        }
        1 => {
            if book::MAX_LINKS <= count {
                return counters;
            }
            let at = lower_bound(links, count, x);
            put_in(counters, links, totals, at, x)
        }
        2 => set_mark(counters, marks, x, FREE_MARK),
        3 => set_mark(counters, marks, x, LOCK_MARK),
        4 => set_mark(counters, marks, x, FREE_MARK),
        5 => set_mark(counters, marks, x, WITHDRAWN_MARK),
        _ => counters,
    }
}

// A link put in or taken out: 2, 18, 3, 4, then 5 or 7 for one to be put in and 6 for one to be taken out, if it cannot be.
fn relink(
    counters: Counters,
    links: &mut [u32],
    marks: &[u32],
    ring: &mut [u32],
    totals: &mut [u32],
    linking: Linking,
) -> Edited
    requires { Whole counters links.old marks.now ring.old × (length totals.old ≡ labels) }
    ensures { Steps (register_of counters links.old marks.now ring.old totals.old)
        (edit (relinks linking)) (outcome_of result links.new marks.now ring.new totals.new) }
{
    let from = linking.from;
    let label = linking.label;
    let to = linking.to;
    let cause = link_cause(counters.n, marks, from, label, to);
    // the causes of the ends, a lock among them, were looked for before anything is written or held
    if cause != 0 {
        return refused(counters, cause);
    }
    let x = link_word(from, label, to);
    let count = counters.count;
    let at = lower_bound(links, count, x);
    let found = stands(links, count, at, x);
    if linking.adds {
        if found {
            return refused(counters, book::ALREADY);
        }
        if book::MAX_LINKS <= count {
            return refused(counters, book::FULL);
        }
        let changed = put_in(counters, links, totals, at, x);
        return hold(changed, ring, x);
    }
    if !found {
        return refused(counters, book::MISSING);
    }
    let changed = cut_out(counters, links, totals, at, x);
    hold(changed, ring, REMOVED + x)
}

// A record's mark changed: 2, the causes of the change, or 17 for a record to be withdrawn that a link touches, if it cannot be.
fn remark(
    counters: Counters,
    links: &[u32],
    marks: &mut [u32],
    ring: &mut [u32],
    x: u16,
    marking: Marking,
) -> Edited
    requires { Whole counters links.now marks.old ring.old × (marking.kind ≤ 5 * kind_unit) }
    ensures { (e : Edit) (totals : List ℕ) → Remarks e x marking
        → Steps (register_of counters links.now marks.old ring.old totals) (edit e)
        (outcome_of result links.now marks.new ring.new totals) }
{
    if counters.n <= x {
        return refused(counters, book::NO_RECORD);
    }
    let mark = marks[x as usize];
    if mark == marking.to {
        return refused(counters, marking.already);
    }
    if mark != marking.from {
        return refused(counters, marking.barred);
    }
    if marking.to == WITHDRAWN_MARK {
        if touched(links, counters.count, x) {
            return refused(counters, book::TOUCHED_RECORD);
        }
    }
    let changed = set_mark(counters, marks, x as u32, marking.to);
    hold(changed, ring, marking.kind + x as u32)
}

// The latest edit still held taken back; with none held the answer is 8.
fn undo(
    counters: Counters,
    links: &mut [u32],
    marks: &mut [u32],
    ring: &[u32],
    totals: &mut [u32],
) -> Edited
    requires { Whole counters links.old marks.old ring.now × (length totals.old ≡ labels) }
    ensures { Steps (register_of counters links.old marks.old ring.now totals.old) undo
        (outcome_of result links.new marks.new ring.now totals.new) }
{
    let held = counters.held;
    if held == 0 {
        return refused(counters, book::NONE_HELD);
    }
    let top = counters.top;
    let mut at = LAST_HELD;
    if top != 0 {
        at = top - 1;
    }
    let word = ring[at];
    let kind = word / KIND_UNIT;
    let x = word % KIND_UNIT;
    let mut fewer = counters;
    fewer.top = at;
    fewer.held = held - 1;
    Edited {
        counters: taken_back(fewer, links, marks, totals, kind, x),
        answer: Answer::Done,
    }
}

// Any edit, or an undo, on the arrays of a register. Contents that no call of the engine made, whose counters are out of range, are refused with 16.
pub fn edit(
    counters: Counters,
    links: &mut [u32],
    marks: &mut [u32],
    ring: &mut [u32],
    totals: &mut [u32],
    call: Call,
) -> Edited
    requires { AsLong links.old marks.old ring.old totals.old }
    ensures { Steps (register_of counters links.old marks.old ring.old totals.old) (call_of call)
        (outcome_of result links.new marks.new ring.new totals.new) }
{
    if !ranged(counters.n, counters.count, counters.top, counters.held) {
        return refused(counters, book::NOT_OPEN);
    }
    match call {
        Call::Add(from, label, to) => {
            let linking = Linking {
                from,
                label,
                to,
                adds: true,
            };
            relink(counters, links, marks, ring, totals, linking)
        }
        Call::Remove(from, label, to) => {
            let linking = Linking {
                from,
                label,
                to,
                adds: false,
            };
            relink(counters, links, marks, ring, totals, linking)
        }
        Call::Lock(record) => remark(counters, links, marks, ring, record, LOCKING),
        Call::Unlock(record) => remark(counters, links, marks, ring, record, UNLOCKING),
        Call::Withdraw(record) => remark(counters, links, marks, ring, record, WITHDRAWING),
        Call::Reinstate(record) => remark(counters, links, marks, ring, record, REINSTATING),
        Call::Undo => undo(counters, links, marks, ring, totals),
    }
}

impl Register {
    // Any edit, or an undo: the arrays are taken out, edited and put back.
    pub fn apply(self, call: Call) -> Outcome
        ensures { Steps self (call_of call) result }
    {
        let counters = Counters {
            n: self.n,
            count: self.count,
            top: self.top,
            held: self.held,
        };
        let mut links = self.links;
        let mut marks = self.marks;
        let mut ring = self.ring;
        let mut totals = self.totals;
        let edited = edit(
            counters,
            &mut links,
            &mut marks,
            &mut ring,
            &mut totals,
            call,
        );
        let after = edited.counters;
        let answer = edited.answer;
        Outcome {
            register: Register {
                n: after.n,
                count: after.count,
                links,
                marks,
                ring,
                top: after.top,
                held: after.held,
                totals,
            },
            answer,
        }
    }

    pub fn add(self, from: u16, label: u8, to: u16) -> Outcome
        ensures { Steps self (edit (add (record { from = from; label = label; to = to }))) result }
    {
        self.apply(Call::Add(from, label, to))
    }

    pub fn remove(self, from: u16, label: u8, to: u16) -> Outcome
        ensures { Steps self (edit (remove (record { from = from; label = label; to = to }))) result }
    {
        self.apply(Call::Remove(from, label, to))
    }

    pub fn lock(self, record: u16) -> Outcome
        ensures { Steps self (edit (lock «record»)) result }
    {
        self.apply(Call::Lock(record))
    }

    pub fn unlock(self, record: u16) -> Outcome
        ensures { Steps self (edit (unlock «record»)) result }
    {
        self.apply(Call::Unlock(record))
    }

    pub fn withdraw(self, record: u16) -> Outcome
        ensures { Steps self (edit (withdraw «record»)) result }
    {
        self.apply(Call::Withdraw(record))
    }

    pub fn reinstate(self, record: u16) -> Outcome
        ensures { Steps self (edit (reinstate «record»)) result }
    {
        self.apply(Call::Reinstate(record))
    }

    pub fn undo(self) -> Outcome
        ensures { Steps self undo result }
    {
        self.apply(Call::Undo)
    }
}
