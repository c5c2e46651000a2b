// The totals of the labels: one more or one less of a word's label. Contents that no call of the engine made are left where there is no room.
// The two are not one function: each has a test and a step of its own, and to lend both as closures would take more words than it saves.
ghost use Rattle.std.specs.Prelude.{◌≡◌, ◌/◌, length};
ghost use Rattle.book.specs.Causes.{labels};
ghost use Rattle.links.specs.Parts.{label_unit};
ghost use Rattle.links.specs.Totals.{Raised, Lowered};

use crate::label_of;

// The most that a total is.
const MOST: u32 = book::MAX_LINKS as u32;

// One link more of the label of a link's word.
pub fn raise_total(totals: &mut [u32], x: u32)
    requires { length totals.old ≡ labels }
    ensures { Raised (x / label_unit) totals.old totals.new }
{
    let label = label_of(x) as usize;
    if label < book::LABELS && totals[label] < MOST {
        totals[label] += 1;
    }
}

// One link less of the label of a link's word.
pub fn lower_total(totals: &mut [u32], x: u32)
    requires { length totals.old ≡ labels }
    ensures { Lowered (x / label_unit) totals.old totals.new }
{
    let label = label_of(x) as usize;
    if label < book::LABELS && 0 < totals[label] {
        totals[label] -= 1;
    }
}
