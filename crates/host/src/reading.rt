// The links, the totals and the marks of a register that the caller keeps as words, each as one list.
ghost use Rattle.answers.specs.Answers.{FirstPart};
ghost use Rattle.host.specs.Host.{told_counted, Asked, Lists};
ghost use Rattle.host.specs.Reading.{ReadsTotals, ReadsMarks};

use answers::{copy_u32, told_refusal};

// Words read of a state, written to the front of a list, as many as it takes; how many they are in all. Refused with 16 if the state is no register's.
fn told_words(state: &[u32], words: &[u32], list: &mut [u32]) -> u64
    ensures { Asked state.now (λ _. FirstPart words.now list.old list.new) told_counted
        list.old list.new result }
{
    if !register::is_register(state) {
        return told_refusal(book::NOT_OPEN);
    }
    let first = register::fitting(words, list.len());
    copy_u32(&words[..first], list, 0);
    words.len() as u64
}

// The links' words, ascending, as many as the list takes; how many they are in all.
#[unsafe(no_mangle)]
pub extern "C" fn dating_links(state: &[u32], list: &mut [u32]) -> u64
    ensures { Asked state.now (Lists list.old list.new) told_counted list.old list.new result }
{
    told_words(state, register::links_in(state), list)
}

// The totals of the labels, ascending, as many as the list takes; how many they are: 26.
#[unsafe(no_mangle)]
pub extern "C" fn dating_totals(state: &[u32], list: &mut [u32]) -> u64
    ensures { Asked state.now (ReadsTotals list.old list.new) told_counted list.old list.new result }
{
    told_words(state, register::totals_in(state), list)
}

// The marks of the records, ascending, as many as the list takes: 0 of a free one, 1 of a locked one, 2 of a withdrawn one; how many they are: n.
#[unsafe(no_mangle)]
pub extern "C" fn dating_marks(state: &[u32], list: &mut [u32]) -> u64
    ensures { Asked state.now (ReadsMarks list.old list.new) told_counted list.old list.new result }
{
    told_words(state, register::marks_in(state), list)
}
