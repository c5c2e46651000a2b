// The pair question by the engine on rows of bits, of a register that the caller keeps as words.
ghost use Rattle.std.specs.Prelude.{length};
ghost use Rattle.query.specs.Asking.{AsksRows};
ghost use Rattle.host.specs.Host.{told_counted, Asked};

use answers::{told, told_refusal};

// The pairs that have a chain, as `dating_pairs` gives them, by rows of bits: the work is 32 relations of n rows, 64 columns to a word.
#[unsafe(no_mangle)]
pub extern "C" fn dating_pairs_by_rows(
    state: &[u32],
    text: &[u8],
    work: &mut [u64],
    list: &mut [u32],
) -> u64
    ensures { Asked state.now (λ r. AsksRows r text.now (length work.old) list.old list.new)
        told_counted list.old list.new result }
{
    if !register::is_register(state) {
        return told_refusal(book::NOT_OPEN);
    }
    let marks = register::marks_in(state);
    let links = register::links_in(state);
    told(rowpairs::pairs_over(marks, links, text, work, list))
}
