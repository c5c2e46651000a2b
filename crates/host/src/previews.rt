// The preview of an edit: the kind and arguments of one edit or undo, and one pair question. The edit is made on a copy of the caller's words, and the question
// is asked of the copy.
ghost use Rattle.std.specs.Prelude.{length};
ghost use Rattle.register.specs.Calls.{call_of};
ghost use Rattle.register.specs.History.{kind_call};
ghost use Rattle.host.specs.Previews.{Foresees, Previewed};

use answers::{copy_u32, told, told_refusal};
use register::{Call, Entry};

// The preview of a call, made on the words themselves.
fn foresee(words: &mut [u32], call: Call, text: &[u8], work: &mut [u64], list: &mut [u32]) -> u64
    ensures { Foresees (call_of call) words.old text.now (length work.old) list.old list.new result }
{
    let number = register::edit_in(words, call);
    if number != 0 {
        return told_refusal(number);
    }
    let edited = &words[..];
    let marks = register::marks_in(edited);
    let links = register::links_in(edited);
    told(rowpairs::pairs_over_as_trees(marks, links, text, work, list))
}

// The preview of a call on the register whose words the state has.
fn preview(state: &[u32], call: Call, text: &[u8], work: &mut [u64], list: &mut [u32]) -> u64
    ensures { Foresees (call_of call) state.now text.now (length work.old) list.old list.new result }
{
    if state.len() < register::STATE_WORDS {
        return told_refusal(book::NOT_OPEN);
    }
    let mut words: [u32; register::STATE_WORDS] = [0; register::STATE_WORDS];
    copy_u32(&state[..register::STATE_WORDS], &mut words, 0);
    foresee(&mut words, call, text, work, list)
}

// The pairs of an expression if an edit or undo were made, as many as the list takes; how many they are in all. The kind is a frame's, and of a record alone
// `from` is the record.
#[unsafe(no_mangle)]
pub extern "C" fn dating_preview(
    state: &[u32],
    kind: u16,
    from: u16,
    label: u8,
    to: u16,
    text: &[u8],
    work: &mut [u64],
    list: &mut [u32],
) -> u64
    ensures { Previewed state.now text.now (length work.old) list.old list.new result
        (kind_call «kind» from label to) }
{
    let entry = register::entry_of(kind as u64, from, label, to);
    match entry {
        Entry::Call(call) => preview(state, call, text, work, list),
        Entry::NoCall => told_refusal(book::UNKNOWN_KIND),
    }
}
