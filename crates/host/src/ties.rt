// Offsets known within limits, of a register that the caller keeps as words.
ghost use Rattle.std.specs.Prelude.{length};
ghost use Rattle.offsets.specs.Answers.{OffsetsTold};

use offsets::Tie;

// The narrowest limits of how many rings each record begins after the base: two words to a record, least and most, or 1 and 0 for a free one.
#[unsafe(no_mangle)]
pub extern "C" fn dating_offsets(
    state: &[u32],
    base: u16,
    ties: &[Tie],
    work: &mut [i64],
    list: &mut [i32],
) -> u64
    ensures { OffsetsTold state.now base ties.now (length work.old) list.old list.new result }
{
    offsets::offsets(state, base, ties, work, list)
}
