// The expression reader: alternatives, sequences and parts read one another through a group, over lent bytes and a position; symbols.rt has letters and
// negated sets. What is written is the postfix code of the expression, in the numbers of items.rt. A code is no longer than its text, so there is always
// room.
#![tactic(auto)]

mod items;
mod symbols;

ghost use Rattle.std.specs.Prelude.{◌≡◌, List, ℕ, ◌+◌, ◌<◌, max, length, drop, set, replicate};
ghost use Rattle.book.specs.Causes.{max_bytes};
ghost use Rattle.paths.specs.Descent.{Parse, got, read_alternatives, read_parts, read_part, read_atom};
ghost use Rattle.reader.specs.Reads.{Reads};
ghost use Rattle.reader.specs.declared.Answer.TheVariants.{Refused};
ghost use Rattle.reader.specs.Progress.{Done, Stands, Asks, Fits, RoomToJoin, RoomToWrap, RoomToWrite, Joins, Closes, comes_next, spot_of, mark_of, wrap};
ghost use Rattle.reader.specs.Progress.{wrap_code};

use crate::items::{ALTERNATIVE, INVERSE, NO_MARK, OPTIONAL, PLUS, SEQUENCE, STAR, letters_number};
use crate::symbols::{Symbol, peek, symbol_at};
pub use items::{Item, item_of};

// The numbers of the causes, in the type of this crate's answers.
const NO_EXPRESSION: u8 = book::NO_EXPRESSION as u8;

const TOO_MANY_BYTES: u8 = book::TOO_MANY_BYTES as u8;

const TOO_LARGE: u8 = book::TOO_LARGE as u8;

// An expression that was read: where it ends in the text and in the code, how many letters it has, and how deep its groups are nested.
#[derive(Clone, Copy)]
struct Spot {
    at: usize,
    end: usize,
    letters: usize,
    depth: usize,
}

// What a reader finds.
#[derive(Clone, Copy)]
enum Parsed {
    Got(Spot),
    Fault,
}

// One number more at the end of the code.
fn push(code: &mut [u64], n: usize, x: u64) -> usize
    requires { n < length code.old }
    ensures { (result ≡ n + 1) × (code.new ≡ set code.old n x) }
{
    code[n] = x;
    n + 1
}

fn larger(a: usize, b: usize) -> usize
    ensures { result ≡ max a b }
{
    if a <= b { b } else { a }
}

// Whether the byte b comes after what was read.
fn comes_next(s: &[u8], r: Parsed, b: u8) -> bool
    ensures { result ≡ comes_next s.now r b }
{
    let Parsed::Got(q) = r else {
        return false;
    };
    peek(s, q.at) == b
}

// The expression that was read, or zeros if none was.
fn ends_at(r: Parsed) -> Spot
    ensures { result ≡ spot_of r }
{
    let Parsed::Got(q) = r else {
        return Spot {
            at: 0,
            end: 0,
            letters: 0,
            depth: 0,
        };
    };
    q
}

// What was read first, and what was read next after an operator's byte, as one expression.
fn combined(code: &mut [u64], first: Parsed, next: Parsed, x: u64) -> Parsed
    requires { RoomToJoin (length code.old) first next }
    ensures { Joins x first next code.old code.new result }
{
    let Parsed::Got(p) = first else {
        return Parsed::Fault;
    };
    let Parsed::Got(q) = next else {
        return Parsed::Fault;
    };
    let end = push(code, q.end, x);
    Parsed::Got(Spot {
        at: q.at,
        end,
        letters: p.letters + q.letters,
        depth: larger(p.depth, q.depth),
    })
}

// Sequences, with | between them.
#[cycle(alternatives_atom_part_sequence)]
fn alternatives(s: &[u8], at: usize, code: &mut [u64], n: usize) -> Parsed
    requires { Asks s.now at n code.old }
    ensures { Done got s.now at n code.old code.new (read_alternatives (drop at s.now)) result }
{
    let mut first = sequence(s, at, code, n);
    while comes_next(s, first, b'|') {
        let q = ends_at(first);
        let next = sequence(s, q.at + 1, code, q.end);
        first = combined(code, first, next, ALTERNATIVE);
    }
    first
}

// Parts, with / between them.
#[cycle(alternatives_atom_part_sequence)]
fn sequence(s: &[u8], at: usize, code: &mut [u64], n: usize) -> Parsed
    requires { Asks s.now at n code.old }
    ensures { Done got s.now at n code.old code.new (read_parts (drop at s.now)) result }
{
    let mut first = part(s, at, code, n);
    while comes_next(s, first, b'/') {
        let q = ends_at(first);
        let next = part(s, q.at + 1, code, q.end);
        first = combined(code, first, next, SEQUENCE);
    }
    first
}

// An optional ^, then a letter or a group, then at most one mark. The mark belongs to the letter or group, and the ^ to both.
#[cycle(alternatives_atom_part_sequence)]
fn part(s: &[u8], at: usize, code: &mut [u64], n: usize) -> Parsed
    requires { Asks s.now at n code.old }
    ensures { Done got s.now at n code.old code.new (read_part (drop at s.now)) result }
{
    if peek(s, at) == b'^' {
        let r = atom(s, at + 1, code, n);
        let mark = mark_after(s, r);
        let q = wrapped(code, r, mark, 1);
        wrapped(code, q, INVERSE, 0)
    } else {
        let r = atom(s, at, code, n);
        let mark = mark_after(s, r);
        wrapped(code, r, mark, 1)
    }
}

// A symbol, or a group: inside its parentheses a whole expression again.
#[cycle(alternatives_atom_part_sequence)]
fn atom(s: &[u8], at: usize, code: &mut [u64], n: usize) -> Parsed
    requires { Asks s.now at n code.old }
    ensures { Done got s.now at n code.old code.new (read_atom (drop at s.now)) result }
{
    if peek(s, at) == b'(' {
        let r = alternatives(s, at + 1, code, n);
        return closed(s, r);
    }
    let x = symbol_at(s, at);
    written(code, n, x)
}

// A symbol's number written.
fn written(code: &mut [u64], n: usize, x: Symbol) -> Parsed
    requires { RoomToWrite (length code.old) n x }
    ensures { (s : List ℕ) (at : ℕ) (y : Parse) → Stands s at y x → Done got s at n code.old code.new y result }
{
    let Symbol::Read(q) = x else {
        return Parsed::Fault;
    };
    let end = push(code, n, letters_number(q.forward, q.against));
    Parsed::Got(Spot {
        at: q.at,
        end,
        letters: 1,
        depth: 0,
    })
}

// The number of the mark's operator that comes after what was read, or NO_MARK if none does.
fn mark_after(s: &[u8], r: Parsed) -> u64
    ensures { result ≡ mark_of s.now r }
{
    let Parsed::Got(p) = r else {
        return NO_MARK;
    };
    let c = peek(s, p.at);
    if c == b'*' {
        return STAR;
    }
    if c == b'+' {
        return PLUS;
    }
    if c == b'?' {
        return OPTIONAL;
    }
    NO_MARK
}

// What was read with the operator of number x on it, its text `passed` bytes longer; as it is if x is NO_MARK.
fn wrapped(code: &mut [u64], r: Parsed, x: u64, passed: usize) -> Parsed
    requires { RoomToWrap (length code.old) x passed r }
    ensures { (result ≡ wrap x passed r) × (code.new ≡ wrap_code x r code.old) }
{
    let Parsed::Got(p) = r else {
        return Parsed::Fault;
    };
    if x == NO_MARK {
        return r;
    }
    let end = push(code, p.end, x);
    Parsed::Got(Spot {
        at: p.at + passed,
        end,
        letters: p.letters,
        depth: p.depth,
    })
}

// What was read after a (, with the ) after it.
fn closed(s: &[u8], r: Parsed) -> Parsed
    requires { Fits s.now r }
    ensures { Closes s.now r result }
{
    let Parsed::Got(p) = r else {
        return Parsed::Fault;
    };
    if peek(s, p.at) == b')' {
        Parsed::Got(Spot {
            at: p.at + 1,
            end: p.end,
            letters: p.letters,
            depth: p.depth + 1,
        })
    } else {
        Parsed::Fault
    }
}

// The answer to a text: accepted, with the length of its code, or refused, with the number of the cause.
#[derive(Clone, Copy)]
pub enum Answer {
    Accepted(usize),
    Refused(u8),
}

// An answer with the code: zeros follow it, and stand alone with a refusal.
#[derive(Drop)]
pub struct Reading {
    pub answer: Answer,
    pub code: [u64; book::MAX_BYTES],
}

// A refusal, with no code.
fn refused(number: u8) -> Reading
    ensures { (result.answer ≡ Refused number) × (result.code ≡ replicate max_bytes 0) }
{
    Reading {
        answer: Answer::Refused(number),
        code: [0u64; book::MAX_BYTES],
    }
}

// A whole text: over 256 bytes first, then the grammar, then the letters and the depth.
fn whole(s: &[u8]) -> Reading
    ensures { Reads s.now result }
{
    if book::MAX_BYTES < s.len() {
        return refused(TOO_MANY_BYTES);
    }
    let mut code = [0u64; book::MAX_BYTES];
    let r = alternatives(s, 0, &mut code, 0);
    let Parsed::Got(q) = r else {
        return refused(NO_EXPRESSION);
    };
    if q.at < s.len() {
        return refused(NO_EXPRESSION);
    }
    if book::MAX_LETTERS < q.letters {
        return refused(TOO_LARGE);
    }
    if book::MAX_DEPTH < q.depth {
        return refused(TOO_LARGE);
    }
    Reading {
        answer: Answer::Accepted(q.end),
        code,
    }
}

// The text from a place on; past the end it is empty.
pub fn read_at(src: &[u8], at: usize) -> Reading
    ensures { Reads (drop at src.now) result }
{
    if at <= src.len() {
        let text = &src[at..];
        whole(text)
    } else {
        refused(NO_EXPRESSION)
    }
}

// The caller's bytes and the place in them from which on they are read. Its functions are thin: the work is done by `read_at`, on the slice and the
// number.
#[derive(Drop)]
pub struct Reader<'a> {
    pub src: &'a [u8],
    pub at: usize,
}

impl<'a> Reader<'a> {
    // At the first byte.
    pub fn new(src: &'a [u8]) -> Reader<'a>
        ensures { (result.src ≡ src.entry) × (result.at ≡ 0) }
    {
        Reader { src, at: 0 }
    }

    // The expression that starts at the place, which may be in the middle of the slice, and ends with it.
    pub fn expression(self) -> Reading
        ensures { Reads (drop self.entry.at self.entry.src.now) result }
    {
        read_at(self.src, self.at)
    }
}

// A whole text: for callers that hold no reader.
pub fn read(text: &[u8]) -> Reading
    ensures { Reads text.now result }
{
    Reader::new(text).expression()
}
