// The walk forward from the start: at each record the smallest step that leads on. What the functions give is stated in specs/Steps.antt.
ghost use Rattle.std.specs.Prelude.{◌*◌, ◌≤◌, length};
ghost use Rattle.book.specs.Causes.{max_records};
ghost use Rattle.arcs.specs.Arcs.{max_arcs, arc_from};
ghost use Rattle.search.specs.Steps.{Kept, Chosen, Better, Walked};
ghost use Rattle.search.specs.Room.{ByIndex, ChooseAsked, WalkAsked};

use crate::states::spread;
use crate::{Aim, Choice, LETTER_UNIT, LETTERS, RECORD_UNIT, Route};

// Those of the states whose number at a record below n is the distance: most often all of them, so the others are taken out.
fn kept(work: &[u64], n: usize, at: usize, states: u64, distance: u64) -> u64
    requires { (n * 64 ≤ length work.now) × (n ≤ max_records) }
    ensures { Kept work.now n at states distance result }
{
    if n <= at {
        return 0;
    }
    let mut found = states;
    let mut left = states;
    while left != 0 {
        let q = u64::trailing_zeros(left) as usize;
        if work[at * 64 + q] != distance {
            found = found & !(1 << q);
        }
        left = left & (left - 1);
    }
    found
}

// No step word: each is less.
const NO_STEP: u32 = 65536;

// The choice with the smaller step word; the other counts only with a state.
fn better(best: Choice, other: Choice) -> Choice
    ensures { Better best.word best.states other.word other.states result.word result.states }
{
    if other.states == 0 {
        return best;
    }
    if best.word <= other.word {
        return best;
    }
    other
}

// The smallest step word with which an arc serves, and the states that it leads to.
fn choose(
    arcs: &[u32],
    index: &[u16],
    enter: &[u64],
    work: &[u64],
    seen: &[u64],
    aim: Aim,
) -> Choice
    requires { ChooseAsked arcs.now index.now enter.now work.now seen.now aim }
    ensures { Chosen arcs.now enter.now work.now seen.now
        aim.n aim.at aim.follows aim.distance (length arcs.now) 0 result.word result.states }
{
    let n = aim.n;
    let distance = aim.distance;
    let mut best = Choice {
        word: NO_STEP,
        states: 0,
    };
    let mut cursor = arcs::first_arc(index, aim.at);
    while cursor != 0 {
        let j = cursor - 1;
        let arc = arcs[j] as usize;
        let to = arc % RECORD_UNIT;
        let letter = arc / LETTER_UNIT % LETTERS;
        let states = kept(
            work,
            n,
            to,
            aim.follows & enter[letter] & seen[to],
            distance,
        );
        let word = (letter * RECORD_UNIT + to) as u32;
        best = better(best, Choice { word, states });
        cursor = arcs::next_arc(index, j);
    }
    best
}

// The steps of a route, by an index of the arcs by the record left: each time the smallest that leads on.
fn forward_by(
    arcs: &[u32],
    index: &[u16],
    follow: &[u64],
    enter: &[u64],
    work: &[u64],
    seen: &[u64],
    route: Route,
    out: &mut [u32],
)
    requires { ByIndex arc_from arcs.now index.now × WalkAsked follow.now enter.now work.now seen.now route out.old }
    ensures { Walked follow.now enter.now work.now seen.now arcs.now
        (length arcs.now) route.n route.from route.steps out.old out.new }
{
    let n = route.n;
    let steps = route.steps;
    let mut at = route.from;
    let mut states: u64 = 1;
    for t in 0..steps {
        let follows = spread(follow, states);
        let distance = (steps - t) as u64;
        let aim = Aim {
            n,
            at,
            follows,
            distance,
        };
        let choice = choose(arcs, index, enter, work, seen, aim);
        out[t] = choice.word;
        at = (choice.word % arcs::RECORD_UNIT) as usize;
        states = choice.states;
    }
}

// The same with an index of its own: one for as many arcs as there may be, or for few.
pub(crate) fn forward(
    arcs: &[u32],
    follow: &[u64],
    enter: &[u64],
    work: &[u64],
    seen: &[u64],
    route: Route,
    out: &mut [u32],
)
    requires { (length arcs.now ≤ max_arcs) × WalkAsked follow.now enter.now work.now seen.now route out.old }
    ensures { Walked follow.now enter.now work.now seen.now arcs.now
        (length arcs.now) route.n route.from route.steps out.old out.new }
{
    if arcs.len() <= arcs::FEW_ARCS {
        let mut few = [0u16; arcs::FEW_INDEX_WORDS];
        arcs::index_by_left(arcs, &mut few);
        forward_by(arcs, &few, follow, enter, work, seen, route, out);
        return;
    }
    let mut index = [0u16; arcs::INDEX_WORDS];
    arcs::index_by_left(arcs, &mut index);
    forward_by(arcs, &index, follow, enter, work, seen, route, out);
}
