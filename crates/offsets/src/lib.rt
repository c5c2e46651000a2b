// Offsets known within limits. A tie says that one record begins at least so many and at most so many rings after another; `offsets` gives the narrowest
// limits of how many rings each record begins after a base, over every placing of whole years that meets all ties, or says that none does.
#![tactic(auto)]

ghost use Rattle.std.specs.Prelude.{◌≡◌, false, ◌+◌, ◌*◌, ◌≤◌, ◌<◌, ◌^◌, length, drop};
ghost use Rattle.std.specs.Int.Signed.{mag};
ghost use Rattle.offsets.specs.Relax as spec;
ghost use Rattle.offsets.specs.Thirds as three;
ghost use Rattle.offsets.specs.Finds as found;
ghost use Rattle.offsets.specs.Answers.{OffsetsTold};
ghost use Rattle.offsets.specs.Inner as inner;

// The limits: so many ties, and so many rings either way; the words of work for each record.
const MAX_TIES: usize = 1024;

const MAX_RINGS: i32 = 20000;

const MIN_RINGS: i32 = -20000;

const WORK_WORDS: usize = 64;

// A number from LOW to below FAR is a distance; any other one stands for "not known".
const FAR: i64 = 4611686018427387904;

const LOW: i64 = -4611686018427387904;

// The least number of 32 bits, and the one after the greatest.
const LEAST_NARROW: i64 = -2147483648;

const PAST_NARROW: i64 = 2147483648;

// A tie: the second record begins at least `least` and at most `most` rings after the first.
#[repr(C)]
#[derive(Clone, Copy)]
pub struct Tie {
    pub first: u16,
    pub second: u16,
    pub least: i32,
    pub most: i32,
}

// ---- judging

// 0 of the words of a register, and 16 of any others.
fn open_number(state: &[u32]) -> u32
    ensures { inner.OpenNumber state.now result }
{
    if register::is_register(state) {
        return 0;
    }
    book::NOT_OPEN
}

// Whether a record is withdrawn, by its mark among the words of its register.
fn is_withdrawn(state: &[u32], record: u16) -> bool
    ensures { result ≡ inner.is_withdrawn_in state.now «record» }
{
    register::mark_in(state, record) == register::WITHDRAWN_MARK
}

// Of two numbers of causes the one that is looked for first; 0 is none.
fn sooner(a: u32, b: u32) -> u32
    ensures { result ≡ inner.sooner a b }
{
    if a == 0 {
        return b;
    }
    if b == 0 {
        return a;
    }
    if b < a {
        return b;
    }
    a
}

// The number against the base, and against more ties than there may be; 0 if there is none.
fn base_number(n: u16, state: &[u32], base: u16, count: usize) -> u32
    ensures { result ≡ inner.base_number n state.now base count }
{
    if n <= base {
        return book::NO_RECORD;
    }
    if is_withdrawn(state, base) {
        return book::WITHDRAWN_RECORD;
    }
    if MAX_TIES < count {
        return book::BAD_TIE;
    }
    0
}

// The number against one tie; 0 if there is none.
fn tie_number(n: u16, state: &[u32], first: u16, second: u16, least: i32, most: i32) -> u32
    ensures { result ≡ inner.tie_number n state.now (record { first = first; second = second; least = least; most = most }) }
{
    if n <= first {
        return book::NO_RECORD;
    }
    if n <= second {
        return book::NO_RECORD;
    }
    if is_withdrawn(state, first) {
        return book::WITHDRAWN_RECORD;
    }
    if is_withdrawn(state, second) {
        return book::WITHDRAWN_RECORD;
    }
    if least < MIN_RINGS {
        return book::BAD_TIE;
    }
    if MAX_RINGS < most {
        return book::BAD_TIE;
    }
    if most < least {
        return book::BAD_TIE;
    }
    0
}

// The number so far, or that against one tie more if it is looked for sooner.
fn judged(found: u32, state: &[u32], n: u16, first: u16, second: u16, least: i32, most: i32) -> u32
    ensures { result ≡ inner.judge_tie n state.now (record { first = first; second = second; least = least; most = most }) found }
{
    let number = tie_number(n, state, first, second, least, most);
    sooner(found, number)
}

// The number against the ties: of all of them that which is looked for first; 0 if there is none.
fn judge(ties: &[Tie], state: &[u32], n: u16) -> u32
    ensures { result ≡ inner.judge_all n state.now ties.now 0 }
{
    let mut i = 0;
    let mut found = 0;
    while i < ties.len() {
        let t = ties[i];
        found = judged(found, state, n, t.first, t.second, t.least, t.most);
        i = i + 1;
    }
    found
}

// ---- passes

// One limit: record `to` lies at most `w` above record `from`. True where the distance was lowered, or `was`.
fn lower(was: bool, from: usize, to: usize, w: i64, d: &mut [i64]) -> bool
    requires { mag w ≤ 2 ^ 31 }
    ensures { (d.new, result) ≡ spec.lower from to w (d.old, was) }
{
    if from >= d.len() {
        return was;
    }
    if to >= d.len() {
        return was;
    }
    let a = d[from];
    if a < LOW {
        return was;
    }
    if a >= FAR {
        return was;
    }
    let v = a + w;
    let b = d[to];
    if v < b {
        d[to] = v;
        return true;
    }
    was
}

// Both limits of a tie, for records that stand from place o on.
fn third(was: bool, o: usize, a: usize, b: usize, up: i64, down: i64, d: &mut [i64]) -> bool
    requires { inner.ThirdAsked o a b up down }
    ensures { (d.new, result) ≡ spec.lower (o + b) (o + a) down (spec.lower (o + a) (o + b) up (d.old, was)) }
{
    let x = o + a;
    let y = o + b;
    let on = lower(was, x, y, up, d);
    lower(on, y, x, down, d)
}

// Both limits of one tie in each of the three thirds of d, in the last one with its records exchanged.
fn relax(was: bool, n: u16, first: u16, second: u16, least: i32, most: i32, d: &mut [i64]) -> bool
    ensures { (d.new, result) ≡ spec.relaxed n first second least most (d.old, was) }
{
    let a = first as usize;
    let b = second as usize;
    let up = most as i64;
    let down = -(least as i64);
    let k = n as usize;
    let m = k * 2;
    let one = third(was, 0, a, b, up, down, d);
    let two = third(one, k, a, b, up, down, d);
    third(two, m, b, a, up, down, d)
}

// One pass: every tie in its order. True where some distance was lowered.
fn pass(ties: &[Tie], n: u16, d: &mut [i64]) -> bool
    ensures { (d.new, result) ≡ spec.relax_all n ties.now (d.old, false) }
{
    let mut i = 0;
    let mut changed = false;
    while i < ties.len() {
        let t = ties[i];
        changed = relax(changed, n, t.first, t.second, t.least, t.most, d);
        i = i + 1;
    }
    changed
}

// How many passes are left after one of `left` that lowered something, or did not.
fn left_after(on: bool, left: usize) -> usize
    ensures { result ≡ spec.left_after on left }
{
    if on {
        if left > 0 {
            return left - 1;
        }
    }
    0
}

// Passes until one lowers nothing, at most `rounds`. True where the last one lowered something.
fn settle(ties: &[Tie], n: u16, rounds: usize, d: &mut [i64]) -> bool
    ensures { (d.new, result) ≡ spec.settled n rounds ties.now (d.old, false) }
{
    let mut left = rounds;
    let mut on = false;
    while left > 0 {
        on = pass(ties, n, d);
        left = left_after(on, left);
    }
    on
}

// The number at place i before the first pass.
fn first_number(n: usize, base: usize, i: usize) -> i64
    requires { (n ≤ 2 ^ 20) × (base < n) }
    ensures { result ≡ three.firstly n base i }
{
    if i < n {
        return 0;
    }
    if i == n + base {
        return 0;
    }
    if i == n * 2 + base {
        return 0;
    }
    FAR
}

// The list as it is before the first pass.
fn fill(n: usize, base: usize, d: &mut [i64])
    requires { (length d.old ≡ n * 3) × ((n ≤ 2 ^ 20) × (base < n)) }
    ensures { three.Starts n base d.new }
{
    for i in 0..d.len() {
        let v = first_number(n, base, i);
        d[i] = v;
    }
}

// A number of 64 bits as one of 32, if it is one.
fn narrow(v: i64) -> i32
    ensures { mag v < 2 ^ 31 → result ≡ v }
{
    if v < LEAST_NARROW {
        return 0;
    }
    if v >= PAST_NARROW {
        return 0;
    }
    v as i32
}

// The first word of record x: the least, or 1 where it is free.
fn least_word(n: usize, x: usize, d: &[i64]) -> i32
    requires { (n * 3 ≤ length d.now) × ((n ≤ 2 ^ 20) × (x < n)) }
    ensures { mag (found.least-word n d.now x) < 2 ^ 31 → result ≡ found.least-word n d.now x }
{
    let a = d[n + x];
    if a < LOW {
        return 1;
    }
    if a >= FAR {
        return 1;
    }
    let b = d[n * 2 + x];
    if b < LOW {
        return 1;
    }
    if b >= FAR {
        return 1;
    }
    let v = -b;
    narrow(v)
}

// The second word of record x: the most, or 0 where it is free.
fn most_word(n: usize, x: usize, d: &[i64]) -> i32
    requires { (n * 3 ≤ length d.now) × ((n ≤ 2 ^ 20) × (x < n)) }
    ensures { mag (found.most-word n d.now x) < 2 ^ 31 → result ≡ found.most-word n d.now x }
{
    let a = d[n + x];
    if a < LOW {
        return 0;
    }
    if a >= FAR {
        return 0;
    }
    narrow(a)
}

// The two words of each record below n, where they fit 32 bits.
fn tell(n: usize, d: &[i64], list: &mut [i32])
    requires { (n * 3 ≤ length d.now) × ((n ≤ 2 ^ 20) × (n * 2 ≤ length list.old)) }
    ensures { (found.Fits n d.now → found.Told n d.now n list.new)
        × (drop (n * 2) list.new ≡ drop (n * 2) list.old) }
{
    for x in 0..n {
        let a = least_word(n, x, d);
        let b = most_word(n, x, d);
        let i = x * 2;
        list[i] = a;
        list[i + 1] = b;
    }
}

// ---- the whole

// The number of the cause against the passes; if there is none, 0, and the work filled for the first of them.
fn begin(state: &[u32], n: u16, base: u16, found: u32, count: usize, work: &mut [i64]) -> u32
    ensures { inner.Begins state.now n base found count work.old work.new result }
{
    let refused = open_number(state);
    let own = base_number(n, state, base, count);
    let first = sooner(own, found);
    if refused != 0 {
        return refused;
    }
    if first != 0 {
        return first;
    }
    let k = n as usize;
    if work.len() < k * WORK_WORDS {
        return book::SHORT_WORK;
    }
    fill(k, base as usize, &mut work[..k * 3]);
    0
}

// How many passes there may be.
fn rounds_of(cause: u32, n: u16) -> usize
    ensures { result ≡ inner.rounds_of cause n }
{
    if cause != 0 {
        return 0;
    }
    n as usize + 1
}

// The answer after the passes, told as 64 bits, and the words of the list if there are limits. The work is taken as it was lent, and read.
fn tell_limits(cause: u32, n: u16, on: bool, work: &mut [i64], list: &mut [i32]) -> u64
    ensures { inner.TellsOver cause n on work.old list.old list.new result }
{
    if cause != 0 {
        return answers::told_refusal(cause);
    }
    if on {
        return answers::PAST_COUNTS;
    }
    let k = n as usize;
    if work.len() < k * 3 {
        return answers::told_refusal(book::SHORT_WORK);
    }
    if list.len() < k * 2 {
        return answers::told_refusal(book::SHORT_LIST);
    }
    tell(k, work, list);
    (k * 2) as u64
}

// The narrowest limits of how many rings each record of a register, kept as words, begins after the base: two words to a record, least and most, or 1 and 0
// for a free one. Told as 64 bits: the words written, 2^32 if no placing meets all ties, 2^33 and the number of the cause for a refusal.
pub fn offsets(state: &[u32], base: u16, ties: &[Tie], work: &mut [i64], list: &mut [i32]) -> u64
    ensures { OffsetsTold state.now base ties.now (length work.old) list.old list.new result }
{
    let n = register::size_in(state);
    let found = judge(ties, state, n);
    let cause = begin(state, n, base, found, ties.len(), work);
    let rounds = rounds_of(cause, n);
    let on = settle(ties, n, rounds, work);
    tell_limits(cause, n, on, work, list)
}
