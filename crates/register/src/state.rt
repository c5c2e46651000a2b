// A register's numbers in range, a fresh register, and the number of an answer.
ghost use Rattle.std.specs.Prelude.{◌≡◌, ◌≤◌};
ghost use Rattle.book.specs.Causes.{max_records};
ghost use Rattle.book.specs.Book.{fresh};
ghost use Rattle.register.specs.Representation.{Represents};
ghost use Rattle.register.specs.Calls.{answer_number, Opens};
ghost use Rattle.register.specs.Inner.{Guarded};

use crate::{Answer, FREE_MARK, MAX_RECORDS, Outcome, Register};

// Whether the numbers are in range, as they are in every register that the engine made.
pub fn ranged(n: u16, count: usize, top: usize, held: usize) -> bool
    ensures { Guarded n count top held result }
{
    if MAX_RECORDS < n {
        return false;
    }
    if book::MAX_LINKS < count {
        return false;
    }
    if book::MAX_HELD <= top {
        return false;
    }
    if book::MAX_HELD < held {
        return false;
    }
    true
}

// A register of n records with no link, no lock, no record withdrawn and nothing held.
pub fn empty(n: u16) -> Register
    requires { n ≤ max_records }
    ensures { Represents result (fresh n) }
{
    Register {
        n,
        count: 0,
        links: [0; book::MAX_LINKS],
        marks: [FREE_MARK; book::MAX_RECORDS],
        ring: [0; book::MAX_HELD],
        top: 0,
        held: 0,
        totals: [0; book::LABELS],
    }
}

impl Register {
    // A fresh register; with n outside 1 to 1,024 the answer is 1, and the register handed back has no records.
    pub fn fresh(n: u16) -> Outcome
        ensures { Opens n result }
    {
        if n < 1 {
            return Outcome {
                register: empty(0),
                answer: Answer::Refused(book::BAD_SIZE),
            };
        }
        if MAX_RECORDS < n {
            return Outcome {
                register: empty(0),
                answer: Answer::Refused(book::BAD_SIZE),
            };
        }
        Outcome {
            register: empty(n),
            answer: Answer::Done,
        }
    }
}

// An answer's number.
pub fn number_of(a: Answer) -> u32
    ensures { result ≡ answer_number a }
{
    match a {
        Answer::Done => 0,
        Answer::Refused(k) => k,
    }
}
