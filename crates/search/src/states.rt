// Sets of states as words, bit q for the state q.
ghost use Rattle.std.specs.Prelude.{◌≡◌, length};
ghost use Rattle.search.specs.Levels.{Spread};

// The rows of the states, joined.
pub(crate) fn spread(rows: &[u64], states: u64) -> u64
    requires { length rows.now ≡ 64 }
    ensures { Spread rows.now states 0 result }
{
    let mut joined = 0;
    let mut left = states;
    while left != 0 {
        let q = u64::trailing_zeros(left) as usize;
        joined = joined | rows[q];
        left = left & (left - 1);
    }
    joined
}
