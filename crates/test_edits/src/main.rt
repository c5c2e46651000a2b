// Makes the register's calls and prints the answers. It makes the edits of the sample (S7.8), as calls and as words, and closes up in a history. It keeps a
// register as words, and comes upon every refusal that a register can give. It withdraws a record and reinstates it, makes 257 edits and 257 undos, and fills
// a register with 4,096 links: one more is refused, and the space of a removed link is used again.
#![tactic(auto)]

ghost use Rattle.std.specs.Prelude.{◌+◌, ◌≤◌, ◌<◌};

use register::{Answer, Outcome, Register};
use std::io;
use std::io::Stdout;

// A word more, and a word less, than a register has.
const MORE: usize = register::STATE_WORDS + 1;

const LESS: usize = register::STATE_WORDS - 1;

// The marks of all records stand before the totals of the labels, which are last.
const FIRST_MARK: usize = register::STATE_WORDS - book::LABELS - book::MAX_RECORDS;

fn line(stdout: Stdout, text: &[u8]) -> io::Result<()> {
    stdout.write_all(text)?;
    stdout.write_all(b"\n")
}

fn count(stdout: Stdout, text: &[u8], number: usize) -> io::Result<()> {
    stdout.write_all(text)?;
    stdout.write_all(b" ")?;
    stdout.print(number as u64)?;
    stdout.write_all(b"\n")
}

fn say(stdout: Stdout, answer: Answer) -> io::Result<()> {
    match answer {
        Answer::Done => line(stdout, b"ok"),
        Answer::Refused(number) => count(stdout, b"refused", number as usize),
    }
}

// The register that a call handed back, its answer printed.
fn after(stdout: Stdout, out: Outcome) -> io::Result<Register> {
    let answer = out.answer;
    say(stdout, answer)?;
    Ok(out.register)
}

fn open(stdout: Stdout, n: u16) -> io::Result<Register> {
    let opened = Register::fresh(n);
    let answer = opened.answer;
    say(stdout, answer)?;
    Ok(opened.register)
}

fn pair(stdout: Stdout, from: u32, to: u32) -> io::Result<()> {
    stdout.print(from as u64)?;
    stdout.write_all(b" ")?;
    stdout.print(to as u64)?;
    stdout.write_all(b"\n")
}

fn pairs(stdout: Stdout, part: &[u32]) -> io::Result<()> {
    for i in 0..part.len() {
        let word = part[i];
        pair(stdout, links::from_of(word), links::to_of(word))?;
    }
    Ok(())
}

// What the questions are given: the links, and those of label a as pairs.
fn show(stdout: Stdout, r: Register) -> io::Result<()> {
    let all = r.links();
    let words = all.words;
    let n = all.count;
    let used = &words[..n];
    count(stdout, b"links", n)?;
    line(stdout, b"label a")?;
    pairs(stdout, register::label_part(used, 0))
}

// open 4; add 0 a 1; add 2 a 1; lock 1; add 1 b 3; undo; add 1 b 3.
fn sample(stdout: Stdout) -> io::Result<()> {
    line(stdout, b"sample")?;
    let r = open(stdout, 4)?;
    let r = after(stdout, r.add(0, 0, 1))?;
    let r = after(stdout, r.add(2, 0, 1))?;
    let r = after(stdout, r.lock(1))?;
    let r = after(stdout, r.add(1, 1, 3))?;
    let r = after(stdout, r.undo())?;
    let r = after(stdout, r.add(1, 1, 3))?;
    show(stdout, r)
}

// The numbers 1 to 6 and 8, each where an earlier cause is not there and, as far as it can be, a later one is.
fn refusals(stdout: Stdout) -> io::Result<()> {
    line(stdout, b"refusals")?;
    open(stdout, 0)?;
    open(stdout, 1025)?;
    let r = open(stdout, 1024)?;
    let r = after(stdout, r.add(1024, 26, 0))?;
    let r = after(stdout, r.add(0, 0, 65535))?;
    let r = after(stdout, r.remove(0, 255, 1024))?;
    let r = after(stdout, r.lock(1024))?;
    let r = after(stdout, r.unlock(65535))?;
    let r = after(stdout, r.lock(7))?;
    let r = after(stdout, r.add(7, 26, 7))?;
    let r = after(stdout, r.remove(7, 255, 7))?;
    let r = after(stdout, r.add(7, 0, 8))?;
    let r = after(stdout, r.add(8, 0, 7))?;
    let r = after(stdout, r.remove(7, 0, 7))?;
    let r = after(stdout, r.add(1023, 25, 1023))?;
    let r = after(stdout, r.add(1023, 25, 1023))?;
    let r = after(stdout, r.lock(7))?;
    let r = after(stdout, r.remove(1023, 25, 1022))?;
    let r = after(stdout, r.unlock(8))?;
    let r = after(stdout, r.undo())?;
    let r = after(stdout, r.undo())?;
    let r = after(stdout, r.undo())?;
    count(stdout, b"records", r.size())?;
    count(stdout, b"links", r.links().count)
}

fn use_of(stdout: Stdout, r: Register, record: u16) -> io::Result<()> {
    if r.is_withdrawn(record) {
        line(stdout, b"withdrawn")
    } else {
        line(stdout, b"in use")
    }
}

// The numbers of withdraw and reinstate, and 18 of the other edits, each where an earlier cause is not there and, as far as it can be, a later one is;
// then both undone.
fn withdrawn(stdout: Stdout) -> io::Result<()> {
    line(stdout, b"withdrawn records")?;
    let r = open(stdout, 4)?;
    let r = after(stdout, r.withdraw(4))?;
    let r = after(stdout, r.reinstate(65535))?;
    let r = after(stdout, r.reinstate(3))?;
    let r = after(stdout, r.add(0, 0, 1))?;
    let r = after(stdout, r.lock(0))?;
    let r = after(stdout, r.withdraw(0))?;
    let r = after(stdout, r.unlock(0))?;
    let r = after(stdout, r.withdraw(0))?;
    let r = after(stdout, r.withdraw(1))?;
    let r = after(stdout, r.withdraw(3))?;
    let r = after(stdout, r.withdraw(3))?;
    let r = after(stdout, r.add(3, 26, 4))?;
    let r = after(stdout, r.add(3, 26, 0))?;
    let r = after(stdout, r.remove(0, 0, 3))?;
    let r = after(stdout, r.lock(3))?;
    let r = after(stdout, r.unlock(3))?;
    use_of(stdout, r, 3)?;
    let r = after(stdout, r.reinstate(3))?;
    use_of(stdout, r, 3)?;
    let r = after(stdout, r.undo())?;
    use_of(stdout, r, 3)?;
    let r = after(stdout, r.undo())?;
    use_of(stdout, r, 3)?;
    after(stdout, r.add(3, 0, 3))?;
    Ok(())
}

fn numbers(stdout: Stdout, told: &[u32]) -> io::Result<()> {
    for i in 0..told.len() {
        count(stdout, b"told", told[i] as usize)?;
    }
    Ok(())
}

// The word of a call, by its kind: 2 add, 3 remove, 4 lock, 5 unlock, 6 undo, 10 withdraw, 11 reinstate, 12 closing up with a list of to words.
fn word(kind: u8, from: u16, label: u8, to: u16) -> u64 {
    ((kind as u64 * 65536 + from as u64) * 256 + label as u64) * 65536 + to as u64
}

// The sample edits again, as words, with words of kinds that do not exist among them, which are told 15 and change nothing: a list with a word to spare,
// which stays as it was, one too short, and no register.
fn replayed(stdout: Stdout) -> io::Result<()> {
    line(stdout, b"replay")?;
    let words = [
        word(2, 0, 0, 1),
        word(0, 2, 0, 1),
        word(2, 2, 0, 1),
        word(4, 1, 0, 0),
        word(7, 0, 0, 0),
        word(2, 1, 1, 3),
        word(6, 0, 0, 0),
        word(2, 1, 1, 3),
        word(10, 3, 0, 0),
        word(11, 3, 0, 0),
        18446744073709551615,
    ];
    let mut told = [99u32; 12];
    let mut none: [u16; 0] = [];
    let out = register::replay(4, &words, &mut told, &mut none);
    let answer = out.answer;
    say(stdout, answer)?;
    numbers(stdout, &told)?;
    count(stdout, b"links", out.register.links().count)?;
    let mut few = [99u32; 8];
    let out = register::replay(4, &words, &mut few, &mut none);
    let answer = out.answer;
    say(stdout, answer)?;
    numbers(stdout, &few)?;
    count(stdout, b"records", out.register.size())?;
    let out = register::replay(0, &words, &mut few, &mut none);
    let answer = out.answer;
    say(stdout, answer)?;
    count(stdout, b"records", out.register.size())
}

// Closings up in a history of words, each with 1,024 words of one list: the first is refused with 13, and the words past the new numbers stay.
fn closed_up(stdout: Stdout) -> io::Result<()> {
    line(stdout, b"close up")?;
    let words = [
        word(2, 1, 0, 3),
        word(10, 2, 0, 0),
        word(12, 0, 0, 3),
        word(12, 0, 0, 4),
        word(6, 0, 0, 0),
        word(4, 2, 0, 0),
    ];
    let mut told = [99u32; 7];
    let mut new = [9u16; 2048];
    let out = register::replay(4, &words, &mut told, &mut new);
    let answer = out.answer;
    say(stdout, answer)?;
    numbers(stdout, &told)?;
    count(stdout, b"records", out.register.size())?;
    let refused = short(new[0]);
    count(stdout, b"of a refused one", refused)?;
    let first = short(new[1024]);
    count(stdout, b"0 is", first)?;
    let second = short(new[1025]);
    count(stdout, b"1 is", second)?;
    let third = short(new[1026]);
    count(stdout, b"2 is", third)?;
    let fourth = short(new[1027]);
    count(stdout, b"3 is", fourth)?;
    let past = short(new[1028]);
    count(stdout, b"past", past)?;
    let mut few = [9u16; 2047];
    let out = register::replay(4, &words, &mut told, &mut few);
    let answer = out.answer;
    say(stdout, answer)?;
    count(stdout, b"records", out.register.size())
}

fn short(x: u16) -> usize {
    x as usize
}

fn wide(x: u32) -> usize {
    x as usize
}

fn too_many_held(mut state: [u32; MORE]) -> [u32; MORE] {
    state[3] = 257;
    state
}

// The first record's mark.
fn marked(mut state: [u32; MORE], mark: u32) -> [u32; MORE] {
    state[FIRST_MARK] = mark;
    state
}

// A register kept as words in the front of a longer slice, whose last word stays as it was, and loaded again; then a counter out of range, too few words, and
// a mark that is the last of its three, and one above it.
fn kept(stdout: Stdout) -> io::Result<()> {
    line(stdout, b"state")?;
    let r = open(stdout, 4)?;
    let r = after(stdout, r.add(0, 0, 1))?;
    let mut state = [99u32; MORE];
    if r.store(&mut state) {
        line(stdout, b"stored")?;
    }
    let out = Register::load(&state);
    let answer = out.answer;
    say(stdout, answer)?;
    count(stdout, b"links", out.register.links().count)?;
    count(stdout, b"past", wide(state[register::STATE_WORDS]))?;
    let few = [0u32; LESS];
    let out = Register::load(&few);
    let answer = out.answer;
    say(stdout, answer)?;
    let out = Register::load(&too_many_held(state));
    let answer = out.answer;
    say(stdout, answer)?;
    count(stdout, b"records", out.register.size())?;
    let out = Register::load(&marked(state, 2));
    let answer = out.answer;
    say(stdout, answer)?;
    use_of(stdout, out.register, 0)?;
    let out = Register::load(&marked(state, 3));
    let answer = out.answer;
    say(stdout, answer)
}

// A register after many calls, and how many of them were accepted.
#[derive(Clone, Copy)]
struct Tally {
    register: Register,
    accepted: u32,
}

fn tallied(out: Outcome, accepted: u32) -> Tally
    requires { accepted < 65536 }
    ensures { result.accepted ≤ accepted + 1 }
{
    let answer = out.answer;
    let register = out.register;
    if register::number_of(answer) == 0 {
        return Tally {
            register,
            accepted: accepted + 1,
        };
    }
    Tally { register, accepted }
}

fn toggle(r: Register, k: u16) -> Outcome {
    if k % 2 == 0 { r.lock(0) } else { r.unlock(0) }
}

// Locks and unlocks of record 0 in turn.
fn toggled(r: Register, times: u16) -> Tally {
    let mut t = Tally {
        register: r,
        accepted: 0,
    };
    for k in 0..times {
        let s = t.register;
        t = tallied(toggle(s, k), t.accepted);
    }
    t
}

fn undone(r: Register, times: u16) -> Tally {
    let mut t = Tally {
        register: r,
        accepted: 0,
    };
    for k in 0..times {
        let s = t.register;
        t = tallied(s.undo(), t.accepted);
    }
    t
}

fn filled(r: Register, times: u16) -> Tally {
    let mut t = Tally {
        register: r,
        accepted: 0,
    };
    for k in 0..times {
        let s = t.register;
        t = tallied(s.add(k / 4, 0, k % 4), t.accepted);
    }
    t
}

// 257 edits, each accepted; then 256 undos pass and the next gives 8, and of the edits only the first, a lock, stands.
fn depth(stdout: Stdout) -> io::Result<()> {
    line(stdout, b"depth")?;
    let edits = toggled(open(stdout, 1)?, 257);
    count(stdout, b"edits", edits.accepted as usize)?;
    let undos = undone(edits.register, 257);
    count(stdout, b"undos", undos.accepted as usize)?;
    let r = after(stdout, undos.register.undo())?;
    after(stdout, r.unlock(0))?;
    Ok(())
}

// 4,096 adds, each accepted, and one more gives 7; then a link is removed, and its space is used again.
fn full(stdout: Stdout) -> io::Result<()> {
    line(stdout, b"full")?;
    let adds = filled(open(stdout, 1024)?, 4096);
    count(stdout, b"adds", adds.accepted as usize)?;
    let r = after(stdout, adds.register.add(0, 1, 0))?;
    let r = after(stdout, r.add(0, 0, 0))?;
    let r = after(stdout, r.remove(512, 0, 3))?;
    count(stdout, b"links", r.links().count)?;
    let r = after(stdout, r.add(0, 1, 0))?;
    let r = after(stdout, r.add(512, 0, 3))?;
    let r = after(stdout, r.undo())?;
    let r = after(stdout, r.add(512, 0, 3))?;
    count(stdout, b"links", r.links().count)
}

fn main(rt: HostRuntime) -> io::Result<()> {
    let stdout = rt.stdout();
    sample(stdout)?;
    replayed(stdout)?;
    closed_up(stdout)?;
    kept(stdout)?;
    refusals(stdout)?;
    withdrawn(stdout)?;
    depth(stdout)?;
    full(stdout)
}
