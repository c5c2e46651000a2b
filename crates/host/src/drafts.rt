// A list of edits made all or none, of a register that the caller keeps as words.
ghost use Rattle.std.specs.Prelude.{◌≡◌, ◌+◌, ◌*◌, ◌<◌};
ghost use Rattle.host.specs.Host.{past_counts, refusal};
ghost use Rattle.host.specs.Drafts.{place_unit, Applies};

use answers::{PAST_COUNTS, told_refusal};
use engine::DraftAnswer;
use register::Register;

// The unit of a place in a refusal.
const PLACE_UNIT: u64 = 32;

// A refusal at a place told as 64 bits.
fn told_at(place: usize, number: u32) -> u64
    requires { place < past_counts }
    ensures { result ≡ refusal (place_unit * place + number) }
{
    told_refusal(number) + PLACE_UNIT * place as u64
}

// Every call of a list made, or none; the calls are words of a history. How many were made; a refusal has 32 times the place of the first that is refused, and
// its number.
#[unsafe(no_mangle)]
pub extern "C" fn dating_apply_all(state: &mut [u32], calls: &[u64]) -> u64
    ensures { Applies calls.now state.old state.new result }
{
    let loaded = Register::load(state);
    let answer = loaded.answer;
    if register::number_of(answer) != 0 {
        return told_refusal(book::NOT_OPEN);
    }
    let count = calls.len() as u64;
    if PAST_COUNTS <= count {
        return told_refusal(book::BROKEN_FRAME);
    }
    let applied = engine::apply_all(loaded.register, calls);
    let answer = applied.answer;
    match answer {
        DraftAnswer::Refused(place, number) => told_at(place, number),
        DraftAnswer::Made => {
            let register = applied.register;
            if !register.store(state) {
                return told_refusal(book::NOT_OPEN);
            }
            count
        }
    }
}
