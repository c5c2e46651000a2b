// The tables of an expression's automaton are made here, as sets of bits, from its postfix code. What they are is stated by `Masked` of crate automaton;
// specs/Builds.antt has the tables while they are made.
#![tactic(auto)]

ghost use Rattle.std.specs.Prelude.{◌≡◌, List, ◌∷◌, ℕ, ◌+◌, ◌<◌, ◌≤◌, length};
ghost use Rattle.book.specs.Causes.{max_letters};
ghost use Rattle.k2.specs.Bits.{digit};
ghost use Rattle.paths.specs.Expressions.{Expr};
ghost use Rattle.paths.specs.Verdicts.{InLimits};
ghost use Rattle.reader.specs.Code.{code, value};
ghost use Rattle.automaton.specs.Automata.{automaton};
ghost use Rattle.automaton.specs.Masks.{Masked};
ghost use Rattle.tables.specs.Rows.{Joined, sensed, Mixed, Turned};
ghost use Rattle.tables.specs.Builds.{Part, parts, places, build, Holds, Next, Alone, in_sense, Merging, Tabled, Unwritten};

use reader::Item;

// A state's bit is in a word: the start, and as many positions as an expression may have letters.
const STATES: usize = book::MAX_LETTERS + 1;

// The most expressions that wait while a code is run.
const PLACES: usize = 19;

// The expressions that wait: of each its first, last and own positions and whether it has the empty word; how many they are, and the positions used.
#[derive(Clone, Copy)]
pub struct Stack {
    pub first: [u64; PLACES],
    pub last: [u64; PLACES],
    pub own: [u64; PLACES],
    pub nullable: [u64; PLACES],
    pub top: usize,
    pub used: usize,
}

// `to` joined to the rows of the states in `from`.
fn with_edges(rows: &mut [u64], from: u64, to: u64)
    requires { length rows.old ≡ 64 }
    ensures { Joined rows.old (digit from) to rows.new }
{
    let mut left = from;
    while left != 0 {
        let p = u64::trailing_zeros(left) as usize;
        rows[p] = rows[p] | to;
        left = left & (left - 1);
    }
}

// The rows of two tables exchanged at the states in own.
fn exchange(a: &mut [u64], b: &mut [u64], own: u64)
    requires { (length a.old ≡ 64) × (length b.old ≡ 64) }
    ensures { Mixed a.old b.old (digit own) a.new
        × Mixed b.old a.old (digit own) b.new }
{
    let mut left = own;
    while left != 0 {
        let p = u64::trailing_zeros(left) as usize;
        let row = a[p];
        a[p] = b[p];
        b[p] = row;
        left = left & (left - 1);
    }
}

// The states in own entered by each letter in its other sense.
fn mirror(enter: &mut [u64], own: u64)
    requires { length enter.old ≡ 64 }
    ensures { Turned enter.old own 64 enter.new }
{
    let mut c = 0;
    while c < 64 {
        let forward = enter[c];
        let against = enter[c + 1];
        enter[c] = (forward & !own) | (against & own);
        enter[c + 1] = (against & !own) | (forward & own);
        c += 2;
    }
}

// x, or nothing if n is 0.
fn only(n: u64, x: u64) -> u64
    ensures { (n ≡ 0 → result ≡ 0) × (0 < n → result ≡ x) }
{
    if n == 0 {
        return 0;
    }
    x
}

// `bit` joined to the rows of the letters whose labels are in the set, all in one sense: 0 forward, 1 against.
fn enter_by(enter: &mut [u64], labels: u32, sense: usize, bit: u64)
    requires { (length enter.old ≡ 64) × (sense < 2) }
    ensures { Joined enter.old (sensed labels sense) bit enter.new }
{
    let mut left = labels as u64;
    while left != 0 {
        let c = u64::trailing_zeros(left) as usize * 2 + sense;
        enter[c] = enter[c] | bit;
        left = left & (left - 1);
    }
}

// A symbol: one more position, entered by the letters that it stands for.
fn symbol(enter: &mut [u64], s: Stack, forward: u32, against: u32) -> Stack
    requires { (length enter.old ≡ 64) × (s.top < places) × (s.used < max_letters) }
    ensures { (fs ps : List ℕ) (m : ℕ) (st : List Part) → Holds (build fs ps enter.old s) m st
        → Holds (build fs ps enter.new result) (m + 1) (parts.of forward against ∷ st) }
{
    let mut r = s;
    let q = r.used + 1;
    let i = r.top;
    let bit = 1 << q;
    r.first[i] = bit;
    r.last[i] = bit;
    r.own[i] = bit;
    r.nullable[i] = 0;
    r.used = q;
    r.top = i + 1;
    enter_by(enter, forward, 0, bit);
    enter_by(enter, against, 1, bit);
    r
}

// Alternatives: the two that wait become one.
fn either(s: Stack) -> Stack
    requires { (2 ≤ s.top) × (s.top ≤ places) }
    ensures { (fs ps es : List ℕ) (m : ℕ) (x y : Part) (st : List Part) → Holds (build fs ps es s) m (y ∷ x ∷ st)
        → Holds (build fs ps es result) m (parts.either x y ∷ st) }
{
    let mut r = s;
    let j = r.top - 1;
    let i = j - 1;
    r.first[i] = r.first[i] | r.first[j];
    r.last[i] = r.last[i] | r.last[j];
    r.own[i] = r.own[i] | r.own[j];
    r.nullable[i] = r.nullable[i] | r.nullable[j];
    r.top = j;
    r
}

// A sequence: besides, the first of the right may follow the last of the left.
fn followed(follow: &mut [u64], pred: &mut [u64], s: Stack) -> Stack
    requires { Merging 2 follow.old pred.old s }
    ensures { (es : List ℕ) (m : ℕ) (x y : Part) (st : List Part)
        → Holds (build follow.old pred.old es s) m (y ∷ x ∷ st)
        → Holds (build follow.new pred.new es result) m (parts.followed x y ∷ st) }
{
    let mut r = s;
    let j = r.top - 1;
    let i = j - 1;
    let last = r.last[i];
    let first = r.first[j];
    r.first[i] = r.first[i] | only(r.nullable[i], first);
    r.last[i] = r.last[j] | only(r.nullable[j], last);
    r.own[i] = r.own[i] | r.own[j];
    r.nullable[i] = r.nullable[i] & r.nullable[j];
    r.top = j;
    with_edges(follow, last, first);
    with_edges(pred, first, last);
    r
}

// One or more: the first may follow the last.
fn repeated(follow: &mut [u64], pred: &mut [u64], s: Stack)
    requires { Merging 1 follow.old pred.old s }
    ensures { (es : List ℕ) (m : ℕ) (x : Part) (st : List Part)
        → Holds (build follow.old pred.old es s) m (x ∷ st)
        → Holds (build follow.new pred.new es s) m (parts.repeated x ∷ st) }
{
    let j = s.top - 1;
    let last = s.last[j];
    let first = s.first[j];
    with_edges(follow, last, first);
    with_edges(pred, first, last);
}

// Once or not at all.
fn maybe(s: Stack) -> Stack
    requires { (1 ≤ s.top) × (s.top ≤ places) }
    ensures { (fs ps es : List ℕ) (m : ℕ) (x : Part) (st : List Part) → Holds (build fs ps es s) m (x ∷ st)
        → Holds (build fs ps es result) m (parts.maybe x ∷ st) }
{
    let mut r = s;
    let j = r.top - 1;
    r.nullable[j] = 1;
    r
}

// Inverted: read backwards, each letter in its other sense.
fn inverted(follow: &mut [u64], pred: &mut [u64], enter: &mut [u64], s: Stack) -> Stack
    requires { Merging 1 follow.old pred.old s × (length enter.old ≡ 64) }
    ensures { (m : ℕ) (x : Part) (st : List Part)
        → Holds (build follow.old pred.old enter.old s) m (x ∷ st)
        → Holds (build follow.new pred.new enter.new result) m (parts.inverted x ∷ st) }
{
    let mut r = s;
    let j = r.top - 1;
    let own = r.own[j];
    let first = r.first[j];
    r.first[j] = r.last[j];
    r.last[j] = first;
    exchange(follow, pred, own);
    mirror(enter, own);
    r
}

// One number of the code.
fn step(follow: &mut [u64], pred: &mut [u64], enter: &mut [u64], s: Stack, i: u64) -> Stack
    requires { Tabled follow.old pred.old enter.old × ((c : List ℕ) × (x : Part) × Next (build follow.old pred.old enter.old s) (i ∷ c) x) }
    ensures { (c : List ℕ) (x : Part) → Next (build follow.old pred.old enter.old s) (i ∷ c) x
        → Next (build follow.new pred.new enter.new result) c x }
{
    let item = reader::item_of(i);
    match item {
        Item::Letters(forward, against) => symbol(enter, s, forward, against),
        Item::Inverse => inverted(follow, pred, enter, s),
        Item::Star => {
            repeated(follow, pred, s);
            maybe(s)
        }
        Item::Plus => {
            repeated(follow, pred, s);
            s
        }
        Item::Optional => maybe(s),
        Item::Alternative => either(s),
        Item::Sequence => followed(follow, pred, s),
    }
}

#[derive(Drop)]
pub struct Tables {
    pub follow: [u64; STATES],
    pub pred: [u64; STATES],
    pub enter: [u64; STATES],
    pub accepting: u64,
}

// The tables that the code of an expression builds from empty ones, before the start is added; against the sense, those of its inverse.
fn built(
    numbers: &[u64],
    against: bool,
    follow: &mut [u64],
    pred: &mut [u64],
    enter: &mut [u64],
) -> Stack
    requires { Tabled follow.old pred.old enter.old × Unwritten follow.old pred.old enter.old
        × ((text : List ℕ) × (e : Expr) × InLimits text e × (numbers.now ≡ code e)) }
    ensures { (text : List ℕ) (e : Expr) → InLimits text e → numbers.now ≡ code e
        → Alone (build follow.new pred.new enter.new result) (value parts (in_sense against e)) }
{
    let mut s = Stack {
        first: [0; PLACES],
        last: [0; PLACES],
        own: [0; PLACES],
        nullable: [0; PLACES],
        top: 0,
        used: 0,
    };
    for i in 0..numbers.len() {
        s = step(follow, pred, enter, s, numbers[i]);
    }
    if against {
        return inverted(follow, pred, enter, s);
    }
    s
}

// The tables of the automaton of the expression whose code it is; against the sense, those of its inverse.
pub fn tables_of(numbers: &[u64], against: bool) -> Tables
    requires { (text : List ℕ) × (e : Expr) × InLimits text e × (numbers.now ≡ code e) }
    ensures { (text : List ℕ) (e : Expr) → InLimits text e → numbers.now ≡ code e
        → Masked result.follow result.pred result.enter result.accepting (automaton (in_sense against e)) }
{
    let mut follow = [0u64; STATES];
    let mut pred = [0u64; STATES];
    let mut enter = [0u64; STATES];
    let s = built(numbers, against, &mut follow, &mut pred, &mut enter);
    let first = s.first[0];
    let last = s.last[0];
    let nullable = s.nullable[0];
    follow[0] = first;
    with_edges(&mut pred, first, 1);
    Tables {
        follow,
        pred,
        enter,
        accepting: last | nullable,
    }
}
