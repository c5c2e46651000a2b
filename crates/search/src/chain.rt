// The first chain: its links as arcs, the levels backward, the walk forward. What is answered is stated in specs/Steps.antt.
ghost use Rattle.std.specs.Prelude.{◌≡◌, true, length};
ghost use Rattle.paths.specs.Expressions.{Expr};
ghost use Rattle.paths.specs.Chains.{Graph};
ghost use Rattle.paths.specs.Inside.{Inside};
ghost use Rattle.automaton.specs.Automata.{automaton};
ghost use Rattle.automaton.specs.Masks.{Masked};
ghost use Rattle.arcs.specs.Arcs.{Spans};
ghost use Rattle.search.specs.Levels.{Setting};
ghost use Rattle.search.specs.Steps.{Untouched, Answered};
ghost use Rattle.search.specs.Room.{SearchAsked, ChainAsked};

use crate::levels::backward;
use crate::walk::forward;
use crate::{Ends, Found, Route};

// The first of the shortest chains between the two ends along the arcs that are of use, by the tables of an automaton.
fn along(
    arcs: &[u32],
    follow: &[u64],
    predecessors: &[u64],
    enter: &[u64],
    ends: Ends,
    work: &mut [u64],
    out: &mut [u32],
) -> Found
    requires { SearchAsked arcs.now follow.now predecessors.now enter.now ends work.old }
    ensures { Untouched out.old out.new result
        × ((g : Graph) (e : Expr) → Setting g (automaton e) follow.now predecessors.now enter.now ends.accepting ends.n
        arcs.now (length arcs.now) → g.in_use ends.from ≡ true → g.in_use ends.to ≡ true
        → Answered g e ends.from ends.to out.old out.new result) }
{
    let n = ends.n;
    let from = ends.from;
    let mut seen = [0u64; book::MAX_RECORDS];
    let number = backward(arcs, predecessors, enter, ends, work, &mut seen);
    if number == 0 {
        return Found::Nowhere;
    }
    let steps = (number - 1) as usize;
    if out.len() < steps {
        return Found::Short;
    }
    let route = Route { n, from, steps };
    forward(arcs, follow, enter, work, &seen, route, out);
    Found::Steps(steps)
}

// The most links that have few arcs.
const FEW_LINKS: usize = arcs::FEW_ARCS / 2;

// The first of the shortest chains between the two ends over the links, by the tables of an expression's automaton.
pub fn first_chain(
    links: &[u32],
    follow: &[u64],
    predecessors: &[u64],
    enter: &[u64],
    ends: Ends,
    work: &mut [u64],
    out: &mut [u32],
) -> Found
    requires { ChainAsked links.now follow.now predecessors.now enter.now ends work.old }
    ensures { Untouched out.old out.new result
        × ((g : Graph) (e : Expr) → g.n ≡ ends.n → Inside g → Spans links.now (length links.now) g
        → Masked follow.now predecessors.now enter.now ends.accepting (automaton e) → g.in_use ends.from ≡ true
        → g.in_use ends.to ≡ true → Answered g e ends.from ends.to out.old out.new result) }
{
    if links.len() <= FEW_LINKS {
        let mut few = [0u32; arcs::FEW_ARCS];
        let count = arcs::arcs_of(links, enter, &mut few);
        return along(&few[0..count], follow, predecessors, enter, ends, work, out);
    }
    let mut arcs = [0u32; arcs::MAX_ARCS];
    let count = arcs::arcs_of(links, enter, &mut arcs);
    along(
        &arcs[0..count],
        follow,
        predecessors,
        enter,
        ends,
        work,
        out,
    )
}
