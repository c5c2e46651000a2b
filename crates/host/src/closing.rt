// Closing up the numbers of a register that the caller keeps as words.
ghost use Rattle.host.specs.Histories.{Renumbers};

use crate::edits::keep;
use register::Register;

// The numbers closed up: the new number of each old one, by ascending old number, or 65,535 for a withdrawn one.
#[unsafe(no_mangle)]
pub extern "C" fn dating_close_up(state: &mut [u32], numbers: &mut [u16]) -> u32
    ensures { Renumbers (record { before = state.old; after = state.new })
        (record { before = numbers.old; after = numbers.new }) result }
{
    let loaded = Register::load(state);
    let answer = loaded.answer;
    if register::number_of(answer) != 0 {
        return book::NOT_OPEN;
    }
    let register = loaded.register;
    keep(engine::close_up(register, numbers), state)
}
