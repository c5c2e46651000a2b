// The pairs that rows of bits have are listed here.
ghost use Rattle.std.specs.Prelude.{◌≡◌, ◌≤◌, length};
ghost use Rattle.book.specs.Causes.{max_records};
ghost use Rattle.rows.specs.RowSets.{pairs_in};
ghost use Rattle.answers.specs.Answers.{FirstPart};
ghost use Rattle.k2.specs.Sizes.{rows_words};

use answers::Counted;

// The pairs of the first n rows written, ascending, as many as the list takes; how many they are in all.
pub(crate) fn hand_over(rows: &[u64], n: usize, out: &mut [u32]) -> Counted
    requires { (n ≤ max_records) × (length rows.now ≡ rows_words) }
    ensures { FirstPart (pairs_in n rows.now) out.old out.new result }
{
    let total = rows::count_pairs(rows, n);
    rows::write_pairs(rows, n, out);
    Counted::Count(total)
}
