// Turns lines into the frames of the program `dating`, so that people can type sessions:
//
//     open 4
//     add 0 a 1        remove 0 a 1
//     lock 1           unlock 1
//     withdraw 1       reinstate 1
//     undo
//     pairs a/^a       chain 0 3 a/b
//     total a
//
// Words are parted by blanks. A blank line and a line that begins with # give no frame, every other line gives one. Where the first word
// is not known it is a frame of the kind 0, to which the program answers `refused 15`; where the words after it do not fit, one with a
// wrong body size, to which it answers `refused 14`, and so for a line of 2,048 bytes or more. Numbers go up to 65,535, labels are a to z.
// Of a question's text at most 1,018 bytes are sent, since the program answers `refused 10` to every text over 256 bytes.
// What a line says is defined in specs/Typed.antt, and its frame in specs/Encoding.antt.
#![tactic(auto)]

mod frames;
mod requests;
mod words;

ghost use Rattle.std.specs.Prelude.{◌≡◌, ◌≤◌, ◌<◌, length, take};
ghost use Rattle.answers.specs.Written.{Wrote};
ghost use Rattle.lines.specs.Typed.{max_line, typed};
ghost use Rattle.lines.specs.Encoding.{sent, frame_room, SentAll};

use std::io;
use std::io::{Read, Stdin, Stdout};

// The next byte of standard input, or 256 at its end.
fn read_byte(mut stdin: Stdin) -> u32
    ensures { result ≤ 256 }
{
    let mut one = [0u8; 1];
    let got = stdin.read(&mut one).unwrap_or(0);
    if got == 0 { 256 } else { wide(one[0]) }
}

fn wide(b: u8) -> u32
    ensures { (result ≡ b) × (result < 256) }
{
    b as u32
}

// A line without its end: its bytes, and whether more may follow.
#[derive(Clone, Copy)]
struct Line {
    len: usize,
    more: bool,
}

// Reads a line into the buffer; the bytes that it has no room for are dropped.
fn read_line(stdin: Stdin, line: &mut [u8]) -> Line
    ensures { result.len ≤ length line.old }
{
    let mut len = 0;
    let mut turns = u64::MAX;
    while turns > 0 {
        let b = read_byte(stdin);
        if b == 10 {
            return Line { len, more: true };
        }
        if b > 255 {
            return Line { len, more: false };
        }
        if len < line.len() {
            line[len] = b as u8;
            len += 1;
        }
        turns -= 1;
    }
    Line { len, more: false }
}

// How many bytes of a line were read and how many its frame has, whether they could be written, and whether more lines may follow.
#[derive(Clone, Copy)]
struct Turned {
    len: usize,
    written: usize,
    sent: bool,
    more: bool,
}

// Reads a line and writes its frame, with out for its bytes.
fn turn(stdin: Stdin, stdout: Stdout, line: &mut [u8], out: &mut [u8]) -> Turned
    requires max_line_in_bounds { max_line < length line.old }
    requires frame_room_in_bounds { frame_room ≤ length out.old }
    ensures { Wrote 0 (sent (typed (take result.len line.new))) out.old out.new result.written }
{
    let read = read_line(stdin, line);
    let len = read.len;
    let written = requests::frame(&line[..len], out);
    let sent = stdout.write_all(&out[..written]).is_ok();
    Turned {
        len,
        written,
        sent,
        more: read.more,
    }
}

// Reads lines and writes their frames, as long as more may follow and they can be written, and tells whether all of them were.
fn send_all(stdin: Stdin, stdout: Stdout) -> bool
    ensures { SentAll result }
{
    let mut line = [0u8; requests::LINE_BYTES];
    let mut out = [0u8; session::FRAME_BYTES];
    let mut lines = u64::MAX;
    while lines > 0 {
        let turned = turn(stdin, stdout, &mut line, &mut out);
        if !turned.sent {
            return false;
        }
        if !turned.more {
            return true;
        }
        lines -= 1;
    }
    true
}

fn main(rt: HostRuntime) -> io::Result<()> {
    if send_all(rt.stdin(), rt.stdout()) {
        Ok(())
    } else {
        rt.stderr().write_all(b"lines: cannot write\n")
    }
}
