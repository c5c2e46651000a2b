// The levels backward from the end: the states from which it is so many steps away, each with its number in the lent work.
// What the functions give is stated in specs/Levels.antt and specs/Frontiers.antt.
ghost use Rattle.std.specs.Prelude.{◌≡◌, List, ℕ, ◌+◌, ◌*◌, ◌<◌, ◌≤◌, length, get_or};
ghost use Rattle.book.specs.Causes.{max_records};
ghost use Rattle.paths.specs.Chains.{Graph};
ghost use Rattle.automaton.specs.Automata.{Automaton};
ghost use Rattle.arcs.specs.Arcs.{max_arcs, arc_to};
ghost use Rattle.search.specs.Levels.{Setting, Stamped, Committed, Sought};
ghost use Rattle.search.specs.Frontiers.{Levelling, Added, Listed, Frontier, Zero};
ghost use Rattle.search.specs.Room.{ByIndex, Queue, CrossAsked, CommitAsked, LevelsAsked};

use crate::states::spread;
use crate::{Ends, Entry, LETTER_UNIT, LETTERS, RECORD_UNIT};

// The states of the entry, if its record is below n, besides those of next, whose records are on the list. How many are they now?
pub(crate) fn add_states(next: &mut [u64], list: &mut [u16], entry: Entry) -> usize
    requires { Queue next.old list.old entry }
    ensures { Listed list.new result entry.n next.new
        × Added next.old entry.n entry.at entry.states next.new }
{
    let at = entry.at;
    let queued = entry.queued;
    if entry.states == 0 {
        return queued;
    }
    if entry.n <= at {
        return queued;
    }
    let old = next[at];
    next[at] = old | entry.states;
    if old != 0 {
        return queued;
    }
    list[queued] = at as u16;
    queued + 1
}

// The states, not seen yet, from which an arc leads to one of the entry's, besides those of next. How many records are queued now?
fn into(
    arcs: &[u32],
    index: &[u16],
    predecessors: &[u64],
    enter: &[u64],
    seen: &[u64],
    next: &mut [u64],
    list: &mut [u16],
    entry: Entry,
) -> usize
    requires { (length predecessors.now ≡ 64) × CrossAsked arc_to arcs.now index.now enter.now seen.now next.old list.old entry }
    ensures { Listed list.new result entry.n next.new
        × ((cur records : List ℕ) (i : ℕ) → entry.at ≡ get_or records i 0 → entry.states ≡ get_or cur entry.at 0
        → Levelling arcs.now predecessors.now enter.now cur seen.now entry.n (length arcs.now) records
        i (length arcs.now) next.old → Levelling arcs.now predecessors.now enter.now
        cur seen.now entry.n (length arcs.now) records (i + 1) (length arcs.now) next.new) }
{
    let n = entry.n;
    let mut queued = entry.queued;
    let mut cursor = arcs::first_arc(index, entry.at);
    while cursor != 0 {
        let j = cursor - 1;
        let arc = arcs[j] as usize;
        let from = arc / RECORD_UNIT % RECORD_UNIT;
        let before = spread(
            predecessors,
            entry.states & enter[arc / LETTER_UNIT % LETTERS],
        );
        let states = before & !seen[from];
        let added = Entry {
            at: from,
            states,
            n,
            queued,
        };
        queued = add_states(next, list, added);
        cursor = arcs::next_arc(index, j);
    }
    queued
}

// The mark at a record, at each of the states.
fn stamp(work: &mut [u64], at: usize, states: u64, mark: u64)
    requires { (at * 64 + 64 ≤ length work.old) × (at < max_records) }
    ensures { Stamped work.old at states mark 0 work.new }
{
    let mut left = states;
    while left != 0 {
        let q = u64::trailing_zeros(left) as usize;
        work[at * 64 + q] = mark;
        left = left & (left - 1);
    }
}

// The mark at the records of the list, at the states of their words, which are seen from now on and become the current level.
fn commit(
    work: &mut [u64],
    seen: &mut [u64],
    next: &mut [u64],
    list: &[u16],
    mark: u64,
    records: &mut [u32],
    masks: &mut [u64],
)
    requires { CommitAsked work.old seen.old next.old list.now records.old masks.old }
    ensures { Zero next.new × Frontier records.new masks.new (length list.now) next.old
        × ((n : ℕ) → Listed list.now (length list.now) n next.old
        → Committed work.old seen.old next.old mark n work.new seen.new) }
{
    for i in 0..list.len() {
        let at = list[i] as usize;
        let states = next[at];
        stamp(work, at, states, mark);
        seen[at] = seen[at] | states;
        next[at] = 0;
        records[i] = list[i] as u32;
        masks[i] = states;
    }
}

// The levels backward from the end, by an index of the arcs by the record reached, until the first state is seen at the start or a level is empty. The number
// at the start: one more than the steps of a shortest chain, or 0 if there is none.
fn backward_by(
    arcs: &[u32],
    index: &[u16],
    predecessors: &[u64],
    enter: &[u64],
    ends: Ends,
    work: &mut [u64],
    seen: &mut [u64],
) -> u64
    requires { ByIndex arc_to arcs.now index.now × LevelsAsked predecessors.now enter.now ends work.old seen.old }
    ensures { (g : Graph) (M : Automaton) (fs : List ℕ) → Setting g M fs predecessors.now enter.now ends.accepting ends.n
        arcs.now (length arcs.now) → Sought g M ends.from ends.to ends.n work.new seen.new result }
{
    let n = ends.n;
    let start = ends.from;
    let end = ends.to;
    let accepting = ends.accepting;
    stamp(work, end, accepting, 1);
    seen[end] = accepting;
    let mut next = [0u64; book::MAX_RECORDS];
    let mut list = [0u16; book::MAX_RECORDS];
    let mut records = [end as u32; book::MAX_RECORDS];
    let mut masks = [accepting; book::MAX_RECORDS];
    let mut count = 1;
    let mut level: u64 = 0;
    while seen[start] % 2 == 0 {
        let mut queued = 0;
        for i in 0..count {
            let at = records[i] as usize;
            let states = masks[i];
            let entry = Entry {
                at,
                states,
                n,
                queued,
            };
            queued = into(
                arcs,
                index,
                predecessors,
                enter,
                seen,
                &mut next,
                &mut list,
                entry,
            );
        }
        if queued == 0 {
            return 0;
        }
        commit(
            work,
            seen,
            &mut next,
            &list[0..queued],
            level + 2,
            &mut records,
            &mut masks,
        );
        count = queued;
        level += 1;
    }
    work[start * 64]
}

// The same with an index of its own: one for as many arcs as there may be, or for few.
pub(crate) fn backward(
    arcs: &[u32],
    predecessors: &[u64],
    enter: &[u64],
    ends: Ends,
    work: &mut [u64],
    seen: &mut [u64],
) -> u64
    requires { (length arcs.now ≤ max_arcs) × LevelsAsked predecessors.now enter.now ends work.old seen.old }
    ensures { (g : Graph) (M : Automaton) (fs : List ℕ) → Setting g M fs predecessors.now enter.now ends.accepting ends.n
        arcs.now (length arcs.now) → Sought g M ends.from ends.to ends.n work.new seen.new result }
{
    if arcs.len() <= arcs::FEW_ARCS {
        let mut few = [0u16; arcs::FEW_INDEX_WORDS];
        arcs::index_by_reached(arcs, &mut few);
        return backward_by(arcs, &few, predecessors, enter, ends, work, seen);
    }
    let mut index = [0u16; arcs::INDEX_WORDS];
    arcs::index_by_reached(arcs, &mut index);
    backward_by(arcs, &index, predecessors, enter, ends, work, seen)
}
