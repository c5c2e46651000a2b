// A preview answers one pair question as if one edit or undo were made. The register is a value, so it and its held edits stay as they are.
// What is promised is stated in specs/Previews.antt.
ghost use Rattle.std.specs.Prelude.{length};
ghost use Rattle.register.specs.Calls.{call_of};
ghost use Rattle.engine.specs.Previews.{Previews};

use answers::Counted;
use register::{Call, Register};

// The pairs of an expression if an edit or undo were made, as many as the list takes; how many they are in all. The edit's number comes before the
// question's.
pub fn preview(
    register: Register,
    call: Call,
    text: &[u8],
    work: &mut [u64],
    list: &mut [u32],
) -> Counted
    ensures { Previews register (call_of call) text.now (length work.old) list.old list.new result }
{
    let outcome = register.apply(call);
    let answer = outcome.answer;
    let number = register::number_of(answer);
    if number != 0 {
        return Counted::Refused(number);
    }
    let edited = outcome.register;
    rowpairs::pairs(edited, text, work, list)
}
