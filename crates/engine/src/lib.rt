// The dating register: this crate has the calls that programs make. A register is a value: an edit hands the next one back, and a question changes nothing.
// Every call takes any contents and any arguments, and what it promises is the whole of what it does: the answer, and everything that it was lent.
// previews.rt has the preview of an edit, drafts.rt a list of edits made all or none; the questions and the tree calls are those of the crates below.
#![tactic(auto)]

mod drafts;
mod previews;

ghost use Rattle.std.specs.Prelude.{length};
ghost use Rattle.book.specs.Book.{add, remove, lock, unlock, withdraw, reinstate, edit, undo};
ghost use Rattle.register.specs.Calls.{call_of, Opens, Steps, Closes};
ghost use Rattle.register.specs.Parting.{Without};
ghost use Rattle.register.specs.Questions.{Sized, Listing, MarkList, Locking, Withdrawal, Totals};
ghost use Rattle.paths.specs.Questions.{by_trees};
ghost use Rattle.engine.specs.Inquiries.{Inquires};

use answers::Counted;
use chains::ChainAnswer;
pub use chains::chain;
pub use drafts::apply_all;
pub use ends::{ends as ends_of, starts as starts_of};
pub use pairs::pairs;
pub use previews::preview;
pub use register::{Applied, DraftAnswer};
use register::{Answer, Call, Links, Outcome, Register};
pub use rowpairs::{pairs_by_rows, relation};
pub use tree::{
    closure as tree_closure, difference as tree_difference, intersection as tree_intersection,
    list as tree_list, make as tree_make, product as tree_product, transpose as tree_transpose,
    union as tree_union,
};

// A fresh register of n records.
pub fn open(n: u16) -> Outcome
    ensures { Opens n result }
{
    Register::fresh(n)
}

// Adds a link.
pub fn add(register: Register, from: u16, label: u8, to: u16) -> Outcome
    ensures { Steps register (edit (add (record { from = from; label = label; to = to }))) result }
{
    register.add(from, label, to)
}

// Removes a link.
pub fn remove(register: Register, from: u16, label: u8, to: u16) -> Outcome
    ensures { Steps register (edit (remove (record { from = from; label = label; to = to }))) result }
{
    register.remove(from, label, to)
}

// Locks a record.
pub fn lock(register: Register, record: u16) -> Outcome
    ensures { Steps register (edit (lock «record»)) result }
{
    register.lock(record)
}

// Unlocks a record.
pub fn unlock(register: Register, record: u16) -> Outcome
    ensures { Steps register (edit (unlock «record»)) result }
{
    register.unlock(record)
}

// Withdraws a record.
pub fn withdraw(register: Register, record: u16) -> Outcome
    ensures { Steps register (edit (withdraw «record»)) result }
{
    register.withdraw(record)
}

// Reinstates a withdrawn record.
pub fn reinstate(register: Register, record: u16) -> Outcome
    ensures { Steps register (edit (reinstate «record»)) result }
{
    register.reinstate(record)
}

// Takes the latest accepted edit back.
pub fn undo(register: Register) -> Outcome
    ensures { Steps register undo result }
{
    register.undo()
}

// Any edit, or an undo.
pub fn apply(register: Register, call: Call) -> Outcome
    ensures { Steps register (call_of call) result }
{
    register.apply(call)
}

// Closes up the numbers, and tells each old number's new one.
pub fn close_up(register: Register, numbers: &mut [u16]) -> Outcome
    ensures { Closes register numbers.old numbers.new result }
{
    register.close_up(numbers)
}

// The number of records.
pub fn size(register: Register) -> usize
    ensures { Sized register result }
{
    register.size()
}

// The links.
pub fn links(register: Register) -> Links
    ensures { Listing register result }
{
    register.links()
}

// The mark of each record.
pub fn marks(register: Register) -> [u32; book::MAX_RECORDS]
    ensures { MarkList register result }
{
    register.marks()
}

// The register without the links that touch a record; nothing is held then.
pub fn without(register: Register, record: u16) -> Register
    ensures { Without register «record» result }
{
    register.without(record)
}

// Whether a record is locked.
pub fn is_locked(register: Register, record: u16) -> bool
    ensures { Locking register «record» result }
{
    register.is_locked(record)
}

// Whether a record is withdrawn.
pub fn is_withdrawn(register: Register, record: u16) -> bool
    ensures { Withdrawal register «record» result }
{
    register.is_withdrawn(record)
}

// The number of links of a label, as the register keeps it.
pub fn total(register: Register, label: u8) -> Counted
    ensures { Totals register label result }
{
    register.total(label)
}

// What a history and the questions asked after it gave.
#[derive(Clone, Copy)]
pub struct Inquiry {
    pub answer: Answer,
    pub size: usize,
    pub links: Links,
    pub marks: [u32; book::MAX_RECORDS],
    pub totals: [u32; book::LABELS],
    pub pairs: Counted,
    pub chain: ChainAnswer,
}

// The records between which a chain is asked for.
#[derive(Clone, Copy)]
pub struct Ends {
    pub from: u16,
    pub to: u16,
}

// A whole history, its calls as words on a fresh register of n records, and then both questions about one expression: `told` takes the number told to
// each word, `numbers` the list of each closing up with 1,024 words for each, `list` the pairs, `steps` the chain.
pub fn inquire(
    n: u16,
    calls: &[u64],
    told: &mut [u32],
    numbers: &mut [u16],
    text: &[u8],
    ends: Ends,
    work: &mut [u64],
    list: &mut [u32],
    steps: &mut [u32],
) -> Inquiry
    ensures { Inquires n calls.now (record { before = told.old; after = told.new })
        (record { before = numbers.old; after = numbers.new })
        (record {
          about = by_trees;
          text = text.now;
          work = length work.old;
          list = record { before = list.old; after = list.new };
          answer = result.pairs;
        })
        (record {
          about = ends;
          text = text.now;
          work = length work.old;
          list = record { before = steps.old; after = steps.new };
          answer = result.chain;
        }) result }
{
    let from = ends.from;
    let to = ends.to;
    let opened = register::replay(n, calls, told, numbers);
    let answer = opened.answer;
    let register = opened.register;
    let number = register::number_of(answer);
    let size = register.size();
    let links = register.links();
    let marks = register.marks();
    let totals = register.totals();
    if number != 0 {
        return Inquiry {
            answer,
            size,
            links,
            marks,
            totals,
            pairs: Counted::Refused(number),
            chain: ChainAnswer::Refused(number),
        };
    }
    let pairs = pairs::pairs(register, text, work, list);
    let chain = chains::chain(register, from, to, text, work, steps);
    Inquiry {
        answer,
        size,
        links,
        marks,
        totals,
        pairs,
        chain,
    }
}
