// Chain questions.
#![tactic(auto)]

ghost use Rattle.std.specs.Prelude.{◌≡◌, List, ℕ, ◌≤◌, length};
ghost use Rattle.book.specs.Causes.{max_records, max_links};
ghost use Rattle.book.specs.Book.{Book};
ghost use Rattle.paths.specs.Expressions.{Expr};
ghost use Rattle.paths.specs.Chains.{asked};
ghost use Rattle.paths.specs.Verdicts.{InLimits};
ghost use Rattle.reader.specs.Code.{code};
ghost use Rattle.register.specs.Representation.{Represents};
ghost use Rattle.register.specs.Reads.{ReadOf};
ghost use Rattle.search.specs.Steps.{Untouched, Answered};
ghost use Rattle.chains.specs.Inner.{Searching};
ghost use Rattle.chains.specs.Replies.{Replies};

use reader::Answer;
use register::Register;
use search::{Ends, Found};

// The number of steps, which the list has; no chain of any length; or the number of a cause.
#[derive(Clone, Copy)]
pub enum ChainAnswer {
    Chain(usize),
    NoChain,
    Refused(u32),
}

// The search over the links for the expression whose code is given; from or to a withdrawn record there is nothing to be found.
fn sought(
    marks: &[u32],
    links: &[u32],
    numbers: &[u64],
    from: usize,
    to: usize,
    work: &mut [u64],
    list: &mut [u32],
) -> Found
    requires { Searching marks.now links.now numbers.now from to work.old }
    ensures { Untouched list.old list.new result
        × ((text : List ℕ) (e : Expr) → InLimits text e → numbers.now ≡ code e → (self : Register) (b : Book) → Represents self b
        → ReadOf self marks.now links.now
        → Answered (asked b) e from to list.old list.new result) }
{
    if marks[from] == register::WITHDRAWN_MARK {
        return Found::Nowhere;
    }
    if marks[to] == register::WITHDRAWN_MARK {
        return Found::Nowhere;
    }
    let tables = tables::tables_of(numbers, false);
    let follow = tables.follow;
    let predecessors = tables.pred;
    let enter = tables.enter;
    let ends = Ends {
        n: marks.len(),
        from,
        to,
        accepting: tables.accepting,
    };
    search::first_chain(links, &follow, &predecessors, &enter, ends, work, list)
}

// The first of the shortest chains from one record to another that spell a word of the expression, over the marks and links that are lent of a register.
pub fn chain_over(
    marks: &[u32],
    links: &[u32],
    from: u16,
    to: u16,
    text: &[u8],
    work: &mut [u64],
    list: &mut [u32],
) -> ChainAnswer
    requires { (length marks.now ≤ max_records) × (length links.now ≤ max_links) }
    ensures { (self : Register) → ReadOf self marks.now links.now
        → Replies self from to text.now (length work.old) list.old list.new result }
{
    let n = marks.len();
    let x = from as usize;
    let y = to as usize;
    if n <= x {
        return ChainAnswer::Refused(book::NO_RECORD);
    }
    if n <= y {
        return ChainAnswer::Refused(book::NO_RECORD);
    }
    let reading = reader::read(text);
    let code = reading.code;
    let answer = reading.answer;
    match answer {
        Answer::Refused(number) => ChainAnswer::Refused(number as u32),
        Answer::Accepted(k) => {
            if work.len() < n * 64 {
                return ChainAnswer::Refused(book::SHORT_WORK);
            }
            let found = sought(marks, links, &code[0..k], x, y, work, list);
            match found {
                Found::Steps(steps) => ChainAnswer::Chain(steps),
                Found::Nowhere => ChainAnswer::NoChain,
                Found::Short => ChainAnswer::Refused(book::SHORT_LIST),
            }
        }
    }
}

// The same of a register.
pub fn chain(
    register: Register,
    from: u16,
    to: u16,
    text: &[u8],
    work: &mut [u64],
    list: &mut [u32],
) -> ChainAnswer
    ensures { Replies register from to text.now (length work.old) list.old list.new result }
{
    let n = register.size();
    let marks = register.marks();
    let links = register.links();
    let words = links.words;
    let count = links.count;
    chain_over(&marks[0..n], &words[0..count], from, to, text, work, list)
}
