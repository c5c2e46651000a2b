// A fresh register, edits and undo, of a register that the caller keeps as words.
ghost use Rattle.book.specs.Book.{add, remove, lock, unlock, withdraw, reinstate, edit, undo};
ghost use Rattle.register.specs.Words.{Edits};
ghost use Rattle.host.specs.Host.{Freshens};
ghost use Rattle.host.specs.Inner.{Finishes};

use register::{Answer, Call, Outcome, edit_in};

// The outcome of an edit: its number, and the register's words if it was accepted.
pub fn keep(outcome: Outcome, state: &mut [u32]) -> u32
    ensures { Finishes outcome state.old state.new result }
{
    let answer = outcome.answer;
    match answer {
        Answer::Refused(number) => number,
        Answer::Done => {
            let register = outcome.register;
            if !register.store(state) {
                return book::NOT_OPEN;
            }
            0
        }
    }
}

// The words of a fresh register of n records.
#[unsafe(no_mangle)]
pub extern "C" fn dating_fresh(n: u16, state: &mut [u32]) -> u32
    ensures { Freshens n state.old state.new result }
{
    let opened = engine::open(n);
    let answer = opened.answer;
    let number = register::number_of(answer);
    if number != 0 {
        return number;
    }
    let register = opened.register;
    if !register.store(state) {
        return book::SHORT_WORK;
    }
    0
}

// A link put in.
#[unsafe(no_mangle)]
pub extern "C" fn dating_add(state: &mut [u32], from: u16, label: u8, to: u16) -> u32
    ensures { Edits (edit (add (record { from = from; label = label; to = to }))) state.old state.new result }
{
    edit_in(state, Call::Add(from, label, to))
}

// A link taken out.
#[unsafe(no_mangle)]
pub extern "C" fn dating_remove(state: &mut [u32], from: u16, label: u8, to: u16) -> u32
    ensures { Edits (edit (remove (record { from = from; label = label; to = to }))) state.old state.new result }
{
    edit_in(state, Call::Remove(from, label, to))
}

// A record locked.
#[unsafe(no_mangle)]
pub extern "C" fn dating_lock(state: &mut [u32], record: u16) -> u32
    ensures { Edits (edit (lock «record»)) state.old state.new result }
{
    edit_in(state, Call::Lock(record))
}

// A record unlocked.
#[unsafe(no_mangle)]
pub extern "C" fn dating_unlock(state: &mut [u32], record: u16) -> u32
    ensures { Edits (edit (unlock «record»)) state.old state.new result }
{
    edit_in(state, Call::Unlock(record))
}

// A record withdrawn.
#[unsafe(no_mangle)]
pub extern "C" fn dating_withdraw(state: &mut [u32], record: u16) -> u32
    ensures { Edits (edit (withdraw «record»)) state.old state.new result }
{
    edit_in(state, Call::Withdraw(record))
}

// A withdrawn record reinstated.
#[unsafe(no_mangle)]
pub extern "C" fn dating_reinstate(state: &mut [u32], record: u16) -> u32
    ensures { Edits (edit (reinstate «record»)) state.old state.new result }
{
    edit_in(state, Call::Reinstate(record))
}

// The latest edit still held taken back.
#[unsafe(no_mangle)]
pub extern "C" fn dating_undo(state: &mut [u32]) -> u32
    ensures { Edits undo state.old state.new result }
{
    edit_in(state, Call::Undo)
}
