// What the engines of pair questions share: the records in use as bits, and the words of work that each of them needs.
#![tactic(auto)]

ghost use Rattle.std.specs.Prelude.{◌≡◌, ◌≤◌, length};
ghost use Rattle.book.specs.Causes.{max_records};
ghost use Rattle.k2.specs.Bits.{bit_at};
ghost use Rattle.paths.specs.Questions.{pairs_work, row_width, rows_work};
ghost use Rattle.query.specs.Evaluation.{used_below};

// The work of either engine is that of so many trees, or of so many relations.
const PARTS: usize = 32;

// The records in use, as 1,024 bits: those below n that are not withdrawn.
pub fn in_use(marks: &[u32], n: usize) -> [u64; 16]
    requires { (n ≤ max_records) × (n ≤ length marks.now) }
    ensures { bit_at result ≡ used_below n marks.now }
{
    let mut records: [u64; 16] = [0; 16];
    for i in 0..n {
        if marks[i] != register::WITHDRAWN_MARK {
            bits::set_bit(&mut records, i);
        }
    }
    records
}

// The words of work of a pair question by trees.
pub fn pairs_work(n: usize) -> usize
    requires { n ≤ max_records }
    ensures { result ≡ pairs_work n }
{
    PARTS * k2::tree_unit(n)
}

// The words of a row of n columns.
pub fn row_width(n: usize) -> usize
    requires { n ≤ max_records }
    ensures { result ≡ row_width n }
{
    (n + 63) / 64
}

// The words of work of a pair question by rows.
pub fn rows_work(n: usize) -> usize
    requires { n ≤ max_records }
    ensures { result ≡ rows_work n }
{
    PARTS * (n * row_width(n))
}
