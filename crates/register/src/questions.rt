// What questions read of a register: its size, links, marks and totals. See specs/Questions.antt.
ghost use Rattle.register.specs.Questions.{Sized, Listing, MarkList, Locking, Withdrawal, TotalList, Totals};

use crate::state::ranged;
use crate::{FREE_MARK, LABELS, LOCK_MARK, Links, MAX_RECORDS, Register, WITHDRAWN_MARK};
use answers::Counted;

impl Register {
    // The number of records; none of contents out of range, which are those of no register.
    pub fn size(self) -> usize
        ensures { Sized self result }
    {
        if !ranged(self.n, self.count, self.top, self.held) {
            return 0;
        }
        self.n as usize
    }

    // The links; none of contents out of range.
    pub fn links(self) -> Links
        ensures { Listing self result }
    {
        let words = self.links;
        if !ranged(self.n, self.count, self.top, self.held) {
            return Links { words, count: 0 };
        }
        Links {
            words,
            count: self.count,
        }
    }

    // The mark of each record; contents out of range have no locked one and no withdrawn one.
    pub fn marks(self) -> [u32; book::MAX_RECORDS]
        ensures { MarkList self result }
    {
        if !ranged(self.n, self.count, self.top, self.held) {
            return [FREE_MARK; book::MAX_RECORDS];
        }
        self.marks
    }

    // Whether a record is locked; none is of contents out of range.
    pub fn is_locked(self, record: u16) -> bool
        ensures { Locking self «record» result }
    {
        if !ranged(self.n, self.count, self.top, self.held) {
            return false;
        }
        if MAX_RECORDS <= record {
            return false;
        }
        self.marks[record as usize] == LOCK_MARK
    }

    // Whether a record is withdrawn; none is of contents out of range.
    pub fn is_withdrawn(self, record: u16) -> bool
        ensures { Withdrawal self «record» result }
    {
        if !ranged(self.n, self.count, self.top, self.held) {
            return false;
        }
        if MAX_RECORDS <= record {
            return false;
        }
        self.marks[record as usize] == WITHDRAWN_MARK
    }

    // The total of each label; none of contents out of range.
    pub fn totals(self) -> [u32; book::LABELS]
        ensures { TotalList self result }
    {
        if !ranged(self.n, self.count, self.top, self.held) {
            return [0; book::LABELS];
        }
        self.totals
    }

    // The number of links of a label, as it is kept: 16 of contents out of range, then 3 for a label above 25.
    pub fn total(self, label: u8) -> Counted
        ensures { Totals self label result }
    {
        if !ranged(self.n, self.count, self.top, self.held) {
            return Counted::Refused(book::NOT_OPEN);
        }
        if LABELS <= label {
            return Counted::Refused(book::BAD_LABEL);
        }
        let kept = self.totals[label as usize];
        Counted::Count(kept as usize)
    }
}
