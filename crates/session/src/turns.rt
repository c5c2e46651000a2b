// What each kind of frame does to the session and prints: a refusal, an open, an edit, and the three questions.
ghost use Rattle.std.specs.Prelude.{◌≡◌, List, ℕ, ◌≤◌, length, take};
ghost use Rattle.answers.specs.Answers.{counted};
ghost use Rattle.answers.specs.Written.{Wrote};
ghost use Rattle.register.specs.Calls.{call_of};
ghost use Rattle.chains.specs.Replies.{outcome_of, chain_counted};
ghost use Rattle.report.specs.Report.{refused_text, outcome_text};
ghost use Rattle.session.specs.Program.{opens, call as Program·call, pairs, chain, totalling, asks};
ghost use Rattle.session.specs.Turns.{room, Turns};
ghost use Rattle.session.specs.Listing.{listing, AnswersPairs, total_said};

use crate::{Framed, State};
use answers::Counted;
use chains::ChainAnswer;
use register::{Call, Register};

// The most records of the program.
const MOST_RECORDS: u16 = 64;

// The most records whose pair questions are answered by rows.
const ROW_RECORDS: usize = 32;

// A refusal, which leaves the state as it was.
pub(crate) fn refuse(state: State, number: u32, out: &mut [u8]) -> Framed
    requires { 29 ≤ length out.old }
    ensures { (result.state ≡ state) × Wrote 0 (refused_text number) out.old out.new result.written }
{
    let written = report::put_refused(number, out, 0);
    Framed { state, written }
}

pub(crate) fn open(state: State, n: u16, out: &mut [u8]) -> Framed
    requires { 29 ≤ length out.old }
    ensures { (work : ℕ) (l : List ℕ) → Turns state (opens n) work l l out.old out.new result }
{
    if n < 1 {
        return refuse(state, book::BAD_SIZE, out);
    }
    if MOST_RECORDS < n {
        return refuse(state, book::BAD_SIZE, out);
    }
    let made = engine::open(n);
    let register = made.register;
    let written = report::put_ok(out, 0);
    Framed {
        state: State {
            opened: true,
            register,
        },
        written,
    }
}

pub(crate) fn edit(state: State, call: Call, out: &mut [u8]) -> Framed
    requires { 29 ≤ length out.old }
    ensures { (work : ℕ) (l : List ℕ) → Turns state (asks (Program·call (call_of call))) work l l out.old out.new result }
{
    if !state.opened {
        return refuse(state, book::NOT_OPEN, out);
    }
    let outcome = engine::apply(state.register, call);
    let answer = outcome.answer;
    let register = outcome.register;
    let written = report::put_answer(register::number_of(answer), out, 0);
    Framed {
        state: State {
            opened: true,
            register,
        },
        written,
    }
}

fn put_reply(answer: ChainAnswer, list: &[u32], out: &mut [u8]) -> usize
    requires { (counted (chain_counted answer) ≤ length list.now) × (room (length list.now) ≤ length out.old) }
    ensures { Wrote 0 (outcome_text (outcome_of answer list.now)) out.old out.new result }
{
    match answer {
        ChainAnswer::Chain(k) => report::put_chain(&list[..k], out, 0),
        ChainAnswer::NoChain => report::put_none(out, 0),
        ChainAnswer::Refused(k) => report::put_refused(k, out, 0),
    }
}

pub(crate) fn ask_chain(
    state: State,
    x: u16,
    y: u16,
    text: &[u8],
    work: &mut [u64],
    list: &mut [u32],
    out: &mut [u8],
) -> Framed
    requires { room (length list.old) ≤ length out.old }
    ensures { Turns state (asks (chain x y text.now)) (length work.old)
        list.old list.new out.old out.new result }
{
    if !state.opened {
        return refuse(state, book::NOT_OPEN, out);
    }
    let answer = engine::chain(state.register, x, y, text, work, list);
    let written = put_reply(answer, list, out);
    Framed { state, written }
}

// How many words of a list are pairs, if there are so many pairs in all.
fn pairs_shown(total: usize, list: &[u32]) -> usize
    ensures { (result ≤ length list.now) × (take result list.now ≡ take total list.now) }
{
    if list.len() < total {
        return list.len();
    }
    total
}

// The number of all pairs, and those in the list.
fn put_listing(answer: Counted, list: &[u32], out: &mut [u8]) -> usize
    requires { room (length list.now) ≤ length out.old }
    ensures { Wrote 0 (outcome_text (listing answer list.now)) out.old out.new result }
{
    match answer {
        Counted::Count(total) => {
            let count = pairs_shown(total, list);
            report::put_pairs(total as u64, &list[..count], out, 0)
        }
        Counted::Refused(k) => report::put_refused(k, out, 0),
    }
}

// The answer to a pair question of an opened book: by rows of bits for up to 32 records, by trees above.
fn answer_pairs(register: Register, text: &[u8], work: &mut [u64], list: &mut [u32]) -> Counted
    ensures { AnswersPairs register text.now (length work.old) list.old list.new result }
{
    if engine::size(register) <= ROW_RECORDS {
        return engine::pairs_by_rows(register, text, work, list);
    }
    engine::pairs(register, text, work, list)
}

pub(crate) fn ask_pairs(
    state: State,
    text: &[u8],
    work: &mut [u64],
    list: &mut [u32],
    out: &mut [u8],
) -> Framed
    requires { room (length list.old) ≤ length out.old }
    ensures { Turns state (asks (pairs text.now)) (length work.old)
        list.old list.new out.old out.new result }
{
    if !state.opened {
        return refuse(state, book::NOT_OPEN, out);
    }
    let answer = answer_pairs(state.register, text, work, list);
    let written = put_listing(answer, list, out);
    Framed { state, written }
}

fn put_total(answer: Counted, out: &mut [u8]) -> usize
    requires { 29 ≤ length out.old }
    ensures { Wrote 0 (total_said answer) out.old out.new result }
{
    match answer {
        Counted::Count(t) => report::put_total(t as u64, out, 0),
        Counted::Refused(k) => report::put_refused(k, out, 0),
    }
}

pub(crate) fn ask_total(state: State, label: u8, out: &mut [u8]) -> Framed
    requires { 29 ≤ length out.old }
    ensures { (work : ℕ) (l : List ℕ) → Turns state (asks (totalling label)) work l l out.old out.new result }
{
    if !state.opened {
        return refuse(state, book::NOT_OPEN, out);
    }
    let answer = engine::total(state.register, label);
    let written = put_total(answer, out);
    Framed { state, written }
}
