// What a line says, as a frame. Each function takes the bytes after the words that are read, and hands back how many bytes it wrote.
ghost use Rattle.std.specs.Prelude.{◌≡◌, ◌≤◌, length};
ghost use Rattle.book.specs.Basics.{pick};
ghost use Rattle.answers.specs.Written.{Wrote};
ghost use Rattle.session.specs.Program.{shape_of};
ghost use Rattle.session.specs.declared.Shape.TheVariants.{Empty, Record, Link, Label, Expression, Ends};
ghost use Rattle.lines.specs.Typed.{misfit, same_bytes, kind_named, argued, typed};
ghost use Rattle.lines.specs.Encoding.{sent, frame_room};

use crate::frames::{put_ends, put_frame, put_link, put_number};
use crate::words;
use crate::words::NONE;
use session::Shape;

// The kinds of frames, in one byte; and one that there is not.
const OPEN: u8 = session::OPEN as u8;

const ADD: u8 = session::ADD as u8;

const REMOVE: u8 = session::REMOVE as u8;

const LOCK: u8 = session::LOCK as u8;

const UNLOCK: u8 = session::UNLOCK as u8;

const UNDO: u8 = session::UNDO as u8;

const PAIRS: u8 = session::PAIRS as u8;

const CHAIN: u8 = session::CHAIN as u8;

const TOTAL: u8 = session::TOTAL as u8;

const WITHDRAW: u8 = session::WITHDRAW as u8;

const REINSTATE: u8 = session::REINSTATE as u8;

const NO_KIND: u8 = 0;

// The most bytes of a line.
const MOST_LINE: usize = 2047;

// What a line is read into: a byte more, so that a longer one is told.
pub const LINE_BYTES: usize = MOST_LINE + 1;

// Arguments that do not fit.
fn broken(out: &mut [u8]) -> usize
    requires { frame_room ≤ length out.old }
    ensures { Wrote 0 (sent misfit) out.old out.new result }
{
    put_frame(UNDO, &[0], b"", out)
}

// A request of no argument.
fn alone(kind: u8, s: &[u8], out: &mut [u8]) -> usize
    requires { frame_room ≤ length out.old }
    ensures { Wrote 0 (sent (argued Empty kind s.now)) out.old out.new result }
{
    if s.len() > 0 {
        return broken(out);
    }
    put_frame(kind, b"", b"", out)
}

// A request of one number, a record or a size.
fn numbered(kind: u8, s: &[u8], out: &mut [u8]) -> usize
    requires { frame_room ≤ length out.old }
    ensures { Wrote 0 (sent (argued Record kind s.now)) out.old out.new result }
{
    let n = words::number(s);
    let left = words::rest(s);
    if n >= NONE {
        return broken(out);
    }
    if left.len() > 0 {
        return broken(out);
    }
    put_number(kind, n as u16, out)
}

// A request of a link.
fn linked(kind: u8, s: &[u8], out: &mut [u8]) -> usize
    requires { frame_room ≤ length out.old }
    ensures { Wrote 0 (sent (argued Link kind s.now)) out.old out.new result }
{
    let from = words::number(s);
    let second = words::rest(s);
    let label = words::label(second);
    let third = words::rest(second);
    let to = words::number(third);
    let left = words::rest(third);
    if from >= NONE {
        return broken(out);
    }
    if label >= NONE {
        return broken(out);
    }
    if to >= NONE {
        return broken(out);
    }
    if left.len() > 0 {
        return broken(out);
    }
    put_link(kind, from as u16, label as u8, to as u16, out)
}

// A request of a label.
fn lettered(kind: u8, s: &[u8], out: &mut [u8]) -> usize
    requires { frame_room ≤ length out.old }
    ensures { Wrote 0 (sent (argued Label kind s.now)) out.old out.new result }
{
    let label = words::label(s);
    let left = words::rest(s);
    if label >= NONE {
        return broken(out);
    }
    if left.len() > 0 {
        return broken(out);
    }
    put_frame(kind, &[label as u8], b"", out)
}

// A request of an expression.
fn expressed(kind: u8, s: &[u8], out: &mut [u8]) -> usize
    requires { frame_room ≤ length out.old }
    ensures { Wrote 0 (sent (argued Expression kind s.now)) out.old out.new result }
{
    put_frame(kind, b"", words::text(s), out)
}

// A request of two ends and an expression.
fn chained(kind: u8, s: &[u8], out: &mut [u8]) -> usize
    requires { frame_room ≤ length out.old }
    ensures { Wrote 0 (sent (argued Ends kind s.now)) out.old out.new result }
{
    let from = words::number(s);
    let second = words::rest(s);
    let to = words::number(second);
    let text = words::text(words::rest(second));
    if from >= NONE {
        return broken(out);
    }
    if to >= NONE {
        return broken(out);
    }
    put_ends(kind, from as u16, to as u16, text, out)
}

// A request of a kind, by the shape of its body.
fn request(kind: u8, s: &[u8], out: &mut [u8]) -> usize
    requires { frame_room ≤ length out.old }
    ensures { Wrote 0 (sent (argued (shape_of kind) kind s.now)) out.old out.new result }
{
    let shape = session::shape_of(kind as u16);
    match shape {
        Shape::Empty => alone(kind, s, out),
        Shape::Record => numbered(kind, s, out),
        Shape::Link => linked(kind, s, out),
        Shape::Size => numbered(kind, s, out),
        Shape::Label => lettered(kind, s, out),
        Shape::Expression => expressed(kind, s, out),
        Shape::Ends => chained(kind, s, out),
        Shape::Unknown => put_frame(NO_KIND, b"", b"", out),
    }
}

// A kind, if the word is its name, else another.
fn named(word: &[u8], name: &[u8], kind: u8, other: u8) -> u8
    ensures { result ≡ pick (same_bytes word.now name.now) kind other }
{
    if words::same(word, name) { kind } else { other }
}

// The kind of the request that a word names.
fn kind_of(word: &[u8]) -> u8
    ensures { result ≡ kind_named word.now }
{
    let kind = named(word, b"reinstate", REINSTATE, NO_KIND);
    let kind = named(word, b"withdraw", WITHDRAW, kind);
    let kind = named(word, b"total", TOTAL, kind);
    let kind = named(word, b"chain", CHAIN, kind);
    let kind = named(word, b"pairs", PAIRS, kind);
    let kind = named(word, b"undo", UNDO, kind);
    let kind = named(word, b"unlock", UNLOCK, kind);
    let kind = named(word, b"lock", LOCK, kind);
    let kind = named(word, b"remove", REMOVE, kind);
    let kind = named(word, b"add", ADD, kind);
    named(word, b"open", OPEN, kind)
}

// Writes the frame of a line.
pub fn frame(line: &[u8], out: &mut [u8]) -> usize
    requires { frame_room ≤ length out.old }
    ensures { Wrote 0 (sent (typed line.now)) out.old out.new result }
{
    if line.len() > MOST_LINE {
        return broken(out);
    }
    let s = words::skip(line);
    if s.len() == 0 {
        return 0;
    }
    if s[0] == b'#' {
        return 0;
    }
    request(kind_of(words::word(s)), words::rest(s), out)
}
