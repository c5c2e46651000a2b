// What is told by one number of a register that the caller keeps as words, and both questions.
ghost use Rattle.std.specs.Prelude.{length};
ghost use Rattle.query.specs.Asking.{AsksPairs};
ghost use Rattle.chains.specs.Replies.{Replies};
ghost use Rattle.ends.specs.Asking.{AsksEnds, AsksStarts};
ghost use Rattle.host.specs.Host.{told_counted, told_chain, Asked, Sizes, TellsLock, TellsWithdrawn, TellsTotal};

use crate::told::told_chain;
use answers::{told, told_refusal};
use register::Register;

// The number of records; 0 if the words are no register's.
#[unsafe(no_mangle)]
pub extern "C" fn dating_size(state: &[u32]) -> u32
    ensures { Sizes state.now result }
{
    register::size_in(state) as u32
}

// Whether a record is locked: 1 or 0; 0 if the words are no register's.
#[unsafe(no_mangle)]
pub extern "C" fn dating_locked(state: &[u32], record: u16) -> u32
    ensures { TellsLock state.now «record» result }
{
    register::has_mark(state, record, register::LOCK_MARK) as u32
}

// Whether a record is withdrawn: 1 or 0; 0 if the words are no register's.
#[unsafe(no_mangle)]
pub extern "C" fn dating_withdrawn(state: &[u32], record: u16) -> u32
    ensures { TellsWithdrawn state.now «record» result }
{
    register::has_mark(state, record, register::WITHDRAWN_MARK) as u32
}

// The number of links of a label.
#[unsafe(no_mangle)]
pub extern "C" fn dating_total(state: &[u32], label: u8) -> u64
    ensures { TellsTotal state.now label result }
{
    told(register::total_in(state, label))
}

// The pairs that have a chain, ascending, each once, as many as the list takes; how many they are in all.
#[unsafe(no_mangle)]
pub extern "C" fn dating_pairs(
    state: &[u32],
    text: &[u8],
    work: &mut [u64],
    list: &mut [u32],
) -> u64
    ensures { Asked state.now (λ r. AsksPairs r text.now (length work.old) list.old list.new)
        told_counted list.old list.new result }
{
    let loaded = Register::load(state);
    let answer = loaded.answer;
    if register::number_of(answer) != 0 {
        return told_refusal(book::NOT_OPEN);
    }
    told(engine::pairs(loaded.register, text, work, list))
}

// The first of the shortest chains from one record to another.
#[unsafe(no_mangle)]
pub extern "C" fn dating_chain(
    state: &[u32],
    from: u16,
    to: u16,
    text: &[u8],
    work: &mut [u64],
    list: &mut [u32],
) -> u64
    ensures { Asked state.now (λ r. Replies r from to text.now (length work.old) list.old list.new)
        told_chain list.old list.new result }
{
    if !register::is_register(state) {
        return told_refusal(book::NOT_OPEN);
    }
    let marks = register::marks_in(state);
    let links = register::links_in(state);
    told_chain(chains::chain_over(marks, links, from, to, text, work, list))
}

// The ends of a record, ascending, as many as the list takes; how many they are in all.
#[unsafe(no_mangle)]
pub extern "C" fn dating_ends(state: &[u32], from: u16, text: &[u8], list: &mut [u32]) -> u64
    ensures { Asked state.now (λ r. AsksEnds r from text.now list.old list.new)
        told_counted list.old list.new result }
{
    if !register::is_register(state) {
        return told_refusal(book::NOT_OPEN);
    }
    let marks = register::marks_in(state);
    let links = register::links_in(state);
    told(ends::joined_over(marks, links, from, text, false, list))
}

// The starts of a record, likewise.
#[unsafe(no_mangle)]
pub extern "C" fn dating_starts(state: &[u32], to: u16, text: &[u8], list: &mut [u32]) -> u64
    ensures { Asked state.now (λ r. AsksStarts r to text.now list.old list.new)
        told_counted list.old list.new result }
{
    if !register::is_register(state) {
        return told_refusal(book::NOT_OPEN);
    }
    let marks = register::marks_in(state);
    let links = register::links_in(state);
    told(ends::joined_over(marks, links, to, text, true, list))
}
