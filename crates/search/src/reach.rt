// The search forward from one record, to every state that is come to. What the functions give is stated in specs/Reaching.antt.
ghost use Rattle.std.specs.Prelude.{◌≡◌, List, true, ℕ, length};
ghost use Rattle.paths.specs.Expressions.{Expr};
ghost use Rattle.paths.specs.Chains.{Graph};
ghost use Rattle.paths.specs.Inside.{Inside};
ghost use Rattle.automaton.specs.Automata.{automaton};
ghost use Rattle.automaton.specs.Masks.{Masked};
ghost use Rattle.arcs.specs.Arcs.{arc_from, Spans};
ghost use Rattle.search.specs.Levels.{Spread};
ghost use Rattle.search.specs.Frontiers.{Listed};
ghost use Rattle.search.specs.Reaching.{Expanding, Reached, Fewer, Ended};
ghost use Rattle.search.specs.Room.{CrossAsked, ReachAsked, EndsAsked};

use crate::levels::add_states;
use crate::states::spread;
use crate::{Entry, LETTER_UNIT, LETTERS, RECORD_UNIT};

// The states, not seen yet, to which an arc leads from the entry's record by one of its states, seen and pending now. How many records are queued now?
fn out_of(
    arcs: &[u32],
    index: &[u16],
    enter: &[u64],
    seen: &mut [u64],
    pending: &mut [u64],
    list: &mut [u16],
    entry: Entry,
) -> usize
    requires { CrossAsked arc_from arcs.now index.now enter.now seen.old pending.old list.old entry }
    ensures { Listed list.new result entry.n pending.new
        × Fewer entry.n seen.old pending.old seen.new pending.new
        × ((fs : List ℕ) (x mask : ℕ) → Spread fs mask 0 entry.states
        → Expanding fs enter.now arcs.now (length arcs.now) entry.n x seen.old pending.old
        entry.at mask (length arcs.now)
        → Expanding fs enter.now arcs.now (length arcs.now) entry.n x seen.new pending.new
        0 0 0) }
{
    let n = entry.n;
    let mut queued = entry.queued;
    let mut cursor = arcs::first_arc(index, entry.at);
    while cursor != 0 {
        let j = cursor - 1;
        let arc = arcs[j] as usize;
        let to = arc % RECORD_UNIT;
        let old = seen[to];
        let states = entry.states & enter[arc / LETTER_UNIT % LETTERS] & !old;
        seen[to] = old | states;
        let added = Entry {
            at: to,
            states,
            n,
            queued,
        };
        queued = add_states(pending, list, added);
        cursor = arcs::next_arc(index, j);
    }
    queued
}

// The states that are come to from a record and the state 0, at each record.
fn reach(
    arcs: &[u32],
    follow: &[u64],
    enter: &[u64],
    n: usize,
    from: usize,
) -> [u64; book::MAX_RECORDS]
    requires { ReachAsked arcs.now follow.now enter.now n from }
    ensures { Reached follow.now enter.now arcs.now (length arcs.now) n from result }
{
    let mut index = [0u16; arcs::INDEX_WORDS];
    arcs::index_by_left(arcs, &mut index);
    let mut seen = [0u64; book::MAX_RECORDS];
    seen[from] = 1;
    let mut pending = [0u64; book::MAX_RECORDS];
    let mut list = [0u16; book::MAX_RECORDS];
    let first = Entry {
        at: from,
        states: 1,
        n,
        queued: 0,
    };
    let mut count = add_states(&mut pending, &mut list, first);
    while count != 0 {
        let last = count - 1;
        let at = list[last] as usize;
        let states = spread(follow, pending[at]);
        pending[at] = 0;
        let top = Entry {
            at,
            states,
            n,
            queued: last,
        };
        count = out_of(arcs, &index, enter, &mut seen, &mut pending, &mut list, top);
    }
    seen
}

// The states that are come to over the links from a record, by the tables of an expression's automaton.
pub fn reached(
    links: &[u32],
    follow: &[u64],
    enter: &[u64],
    n: usize,
    from: usize,
) -> [u64; book::MAX_RECORDS]
    requires { EndsAsked links.now follow.now enter.now n from }
    ensures { (g : Graph) (e : Expr) (ps : List ℕ) (f : ℕ) → g.n ≡ n → Inside g → Spans links.now (length links.now) g
        → length ps ≡ 64 → Masked follow.now ps enter.now f (automaton e) → g.in_use from ≡ true → Ended g e from f result }
{
    let mut arcs = [0u32; arcs::MAX_ARCS];
    let count = arcs::arcs_of(links, enter, &mut arcs);
    reach(&arcs[0..count], follow, enter, n, from)
}
