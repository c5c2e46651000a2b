// Sole support, of a register that the caller keeps as words.
ghost use Rattle.std.specs.Prelude.{length};
ghost use Rattle.support.specs.Support.{Supports};
ghost use Rattle.host.specs.Host.{told_counted, Asked};

use answers::{told, told_refusal};
use register::Register;

// The records that lose every chain to the anchors when the links of the core are gone, ascending; how many they are.
#[unsafe(no_mangle)]
pub extern "C" fn dating_sole_support(
    state: &[u32],
    core: u16,
    text: &[u8],
    anchors: &[u16],
    work: &mut [u64],
    list: &mut [u32],
) -> u64
    ensures { Asked state.now
        (λ r. Supports r core text.now anchors.now (length work.old) list.old list.new)
        told_counted list.old list.new result }
{
    let loaded = Register::load(state);
    let answer = loaded.answer;
    if register::number_of(answer) != 0 {
        return told_refusal(book::NOT_OPEN);
    }
    told(support::sole_support(loaded.register, core, text, anchors, work, list))
}
