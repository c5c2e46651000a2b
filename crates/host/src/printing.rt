// The printed page: the pages of a pair question's answer, and the pairs read back from them.
ghost use Rattle.std.specs.Prelude.{length};
ghost use Rattle.pages.specs.PageCalls.{Prints, ReadsPages};
ghost use Rattle.host.specs.Host.{told_counted, Told, Asked};

use answers::{told, told_refusal};
use register::Register;

// The pages of a pair question's answer; how many bytes they are.
#[unsafe(no_mangle)]
pub extern "C" fn dating_pages(
    state: &[u32],
    text: &[u8],
    work: &mut [u64],
    pages: &mut [u8],
) -> u64
    ensures { Asked state.now (λ r. Prints r text.now (length work.old) pages.old pages.new)
        told_counted pages.old pages.new result }
{
    let loaded = Register::load(state);
    let answer = loaded.answer;
    if register::number_of(answer) != 0 {
        return told_refusal(book::NOT_OPEN);
    }
    told(pages::print(loaded.register, text, work, pages))
}

// The pairs that pages of an expression show, ascending; how many they are. No register is asked.
#[unsafe(no_mangle)]
pub extern "C" fn dating_read_pages(text: &[u8], pages: &[u8], list: &mut [u32]) -> u64
    ensures { Told (ReadsPages text.now pages.now list.old list.new) told_counted result }
{
    told(pages::read_pages(text, pages, list))
}
