// One frame of the program: what it says, what it does to the session, and which bytes it prints; and a run over a whole input. turns.rt has what each kind of
// frame does. What is right is defined in specs/Program.antt.
#![tactic(auto)]

mod turns;

ghost use Rattle.std.specs.Prelude.{◌≡◌, List, ℕ, ◌≤◌, ◌<◌, length, get_or};
ghost use Rattle.session.specs.Program.{decode as Program·decode, number16 as Program·number16, following as Program·following, whole_front};
ghost use Rattle.session.specs.Program.{shape_of, fits, called, unopened as Program·unopened};
ghost use Rattle.session.specs.Says.{says};
ghost use Rattle.session.specs.Turns.{StateOf, room, Framing};
ghost use Rattle.session.specs.Runs.{OneTurn, RunsOn};
ghost use Rattle.register.specs.History.{kind_call};

use crate::turns::{ask_chain, ask_pairs, ask_total, edit, open, refuse};
use register::{Call, Entry, Register};

// The kinds of frames; those of calls are a history's.
pub const OPEN: u16 = 1;

pub const ADD: u16 = register::ADD_KIND as u16;

pub const REMOVE: u16 = register::REMOVE_KIND as u16;

pub const LOCK: u16 = register::LOCK_KIND as u16;

pub const UNLOCK: u16 = register::UNLOCK_KIND as u16;

pub const UNDO: u16 = register::UNDO_KIND as u16;

pub const PAIRS: u16 = 7;

pub const CHAIN: u16 = 8;

pub const TOTAL: u16 = 9;

pub const WITHDRAW: u16 = register::WITHDRAW_KIND as u16;

pub const REINSTATE: u16 = register::REINSTATE_KIND as u16;

// The bytes of a number, of a link, and of the two ends of a chain question.
const NUMBER_BYTES: usize = 2;

const LINK_BYTES: usize = 2 * NUMBER_BYTES + 1;

const ENDS_BYTES: usize = 2 * NUMBER_BYTES;

// The least and the most that the length of a frame may be.
const MIN_FRAME: usize = 2;

const MAX_FRAME: usize = 1024;

// The most bytes of a line.
const MAX_LINE: usize = 13;

// What the program lends: the words of work and of list, the most bytes of a frame with its length, and the bytes that a frame may print.
pub const WORDS: usize = 4096;

pub const FRAME_BYTES: usize = MAX_FRAME + 2;

pub const PRINTED_BYTES: usize = MAX_LINE * (WORDS + 3);

// Whether a register is opened, and the register.
#[derive(Clone, Copy)]
pub struct State {
    opened: bool,
    register: Register,
}

// What a frame hands back: the state after it, and how many bytes it printed.
#[derive(Clone, Copy)]
pub struct Framed {
    pub state: State,
    pub written: usize,
}

// How far a run came: the state then, how many bytes of input it read and of output it printed, and whether there is more to do.
#[derive(Clone, Copy)]
pub struct Ran {
    pub state: State,
    pub read: usize,
    pub written: usize,
    pub more: bool,
}

// What the body of a kind holds; `Ends` are those of a chain question, with its expression after them.
#[derive(Clone, Copy)]
pub enum Shape {
    Empty,
    Record,
    Link,
    Size,
    Label,
    Expression,
    Ends,
    // That of no kind.
    Unknown,
}

// A frame's request, or what is wrong with the frame. The text of a question stays in the body.
#[derive(Clone, Copy)]
pub enum Decoded {
    Open(u16),
    Edit(Call),
    Pairs,
    Chain(u16, u16),
    Total(u8),
    // A body of the wrong size.
    Broken,
    Unknown,
}

// The byte at place p, or 0 past the end.
fn byte_at(s: &[u8], p: usize) -> u16
    ensures { (result ≡ get_or s.now p 0) × (result < 256) }
{
    if p < s.len() { s[p] as u16 } else { 0 }
}

// The two-byte number at place p.
pub fn number16(s: &[u8], p: usize) -> u16
    ensures { result ≡ Program·number16 s.now p }
{
    if s.len() <= p {
        return 0;
    }
    byte_at(s, p) + 256 * byte_at(s, p + 1)
}

// The shape of the body of a kind.
pub fn shape_of(kind: u16) -> Shape
    ensures { result ≡ shape_of kind }
{
    match kind {
        OPEN => Shape::Size,
        ADD => Shape::Link,
        REMOVE => Shape::Link,
        LOCK => Shape::Record,
        UNLOCK => Shape::Record,
        UNDO => Shape::Empty,
        PAIRS => Shape::Expression,
        CHAIN => Shape::Ends,
        TOTAL => Shape::Label,
        WITHDRAW => Shape::Record,
        REINSTATE => Shape::Record,
        _ => Shape::Unknown,
    }
}

// Whether a body of a shape may have n bytes.
fn fits(shape: Shape, n: usize) -> bool
    ensures { result ≡ fits shape n }
{
    match shape {
        Shape::Empty => n == 0,
        Shape::Record => n == NUMBER_BYTES,
        Shape::Link => n == LINK_BYTES,
        Shape::Size => n == NUMBER_BYTES,
        Shape::Label => n == 1,
        Shape::Expression => true,
        Shape::Ends => n >= ENDS_BYTES,
        Shape::Unknown => true,
    }
}

// The call of a kind with its arguments.
fn called(kind: u16, from: u16, label: u8, to: u16) -> Decoded
    ensures { (s : List ℕ) → says result s ≡ called (kind_call kind from label to) }
{
    let entry = register::entry_of(kind as u64, from, label, to);
    match entry {
        Entry::Call(call) => Decoded::Edit(call),
        Entry::NoCall => Decoded::Unknown,
    }
}

// What a frame says: its body is read by the shape of its kind, if it fits.
pub fn decode(kind: u16, body: &[u8]) -> Decoded
    ensures { says result body.now ≡ Program·decode kind body.now }
{
    let shape = shape_of(kind);
    let fit = fits(shape, body.len());
    if !fit {
        return Decoded::Broken;
    }
    match shape {
        Shape::Empty => called(kind, 0, 0, 0),
        Shape::Record => called(kind, number16(body, 0), 0, 0),
        Shape::Link => {
            let label = body[2];
            called(kind, number16(body, 0), label, number16(body, 3))
        }
        Shape::Size => Decoded::Open(number16(body, 0)),
        Shape::Label => {
            let label = body[0];
            Decoded::Total(label)
        }
        Shape::Expression => Decoded::Pairs,
        Shape::Ends => Decoded::Chain(number16(body, 0), number16(body, 2)),
        Shape::Unknown => Decoded::Unknown,
    }
}

// The state at the start of a run.
pub fn unopened() -> State
    ensures { StateOf result Program·unopened }
{
    let made = engine::open(1);
    let register = made.register;
    State {
        opened: false,
        register,
    }
}

// What one frame does to the state, and the bytes that it prints into out.
pub fn frame(
    state: State,
    kind: u16,
    body: &[u8],
    work: &mut [u64],
    list: &mut [u32],
    out: &mut [u8],
) -> Framed
    ensures { Framing state (Program·decode kind body.now) (length work.old)
        list.old list.new out.old out.new result }
{
    if out.len() / MAX_LINE < list.len() + 3 {
        return Framed { state, written: 0 };
    }
    let decoded = decode(kind, body);
    match decoded {
        Decoded::Open(n) => open(state, n, out),
        Decoded::Edit(call) => edit(state, call, out),
        Decoded::Pairs => ask_pairs(state, body, work, list, out),
        Decoded::Chain(x, y) => ask_chain(state, x, y, &body[ENDS_BYTES..], work, list, out),
        Decoded::Total(label) => ask_total(state, label, out),
        Decoded::Broken => refuse(state, book::BROKEN_FRAME, out),
        Decoded::Unknown => refuse(state, book::UNKNOWN_KIND, out),
    }
}

// How many bytes follow the length at the front of the input; 0 where it has no two bytes, or a length that no frame may have.
pub fn following(input: &[u8]) -> usize
    ensures { result ≡ Program·following input.now }
{
    if input.len() < 2 {
        return 0;
    }
    let n = number16(input, 0) as usize;
    if n < MIN_FRAME {
        return 0;
    }
    if n > MAX_FRAME {
        return 0;
    }
    n
}

// How many bytes the whole frame at the front of the input is, or 0 where none stands there.
fn front(input: &[u8]) -> usize
    ensures { result ≡ whole_front input.now }
{
    let n = following(input);
    if n == 0 {
        return 0;
    }
    if input.len() < n + 2 {
        return 0;
    }
    n + 2
}

// Where no whole frame stands the run ends: nothing is printed at the end of the input, else that the frame is broken.
fn halt(state: State, input: &[u8], out: &mut [u8]) -> Ran
    requires { (whole_front input.now ≡ 0) × (29 ≤ length out.old) }
    ensures { (work : ℕ) (l : List ℕ) → room (length l) ≤ length out.old
        → OneTurn state input.now work l l out.old out.new result }
{
    if input.len() == 0 {
        return Ran {
            state,
            read: 0,
            written: 0,
            more: false,
        };
    }
    let written = report::put_refused(book::BROKEN_FRAME, out, 0);
    Ran {
        state,
        read: 0,
        written,
        more: false,
    }
}

// One turn of a run: the frame at the front of the input, or the run's end. With too little room for what a frame may print, nothing.
pub fn step(state: State, input: &[u8], work: &mut [u64], list: &mut [u32], out: &mut [u8]) -> Ran
    ensures { OneTurn state input.now (length work.old)
        list.old list.new out.old out.new result }
{
    if out.len() / MAX_LINE < list.len() + 3 {
        return Ran {
            state,
            read: 0,
            written: 0,
            more: true,
        };
    }
    let read = front(input);
    if read == 0 {
        return halt(state, input, out);
    }
    let kind = number16(input, 2);
    let framed = frame(state, kind, &input[4..read], work, list, out);
    let next = framed.state;
    let written = framed.written;
    let more = true;
    Ran {
        state: next,
        read,
        written,
        more,
    }
}

// A run over the whole input, as far as there is room for what it prints.
pub fn run(state: State, input: &[u8], work: &mut [u64], list: &mut [u32], out: &mut [u8]) -> Ran
    ensures { RunsOn (length work.old) state input.now
        list.old list.new out.old out.new result }
{
    let mut state = state;
    let mut read = 0;
    let mut written = 0;
    loop {
        let ran = step(state, &input[read..], work, list, &mut out[written..]);
        let next = ran.state;
        state = next;
        read += ran.read;
        written += ran.written;
        if !ran.more {
            return Ran {
                state,
                read,
                written,
                more: false,
            };
        }
        if ran.read == 0 {
            return Ran {
                state,
                read,
                written,
                more: true,
            };
        }
    }
}
