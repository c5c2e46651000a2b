// The program of the dating register reads frames from standard input and writes lines to standard output.
// What a frame does and prints, where it ends and where a run ends, is proved of session::following and session::step, against
// crates/session/specs/Program.antt. Here bytes are only read and written.
#![tactic(auto)]

ghost use Rattle.std.specs.Prelude.{◌+◌, ◌≤◌, length, take};
ghost use Rattle.session.specs.Program.{program_words, max_frame, following};
ghost use Rattle.session.specs.Turns.{room};
ghost use Rattle.session.specs.Runs.{Lends, Answered};

use session::{Ran, State};
use std::io;
use std::io::{Read, Stdin, Stdout};

// How many bytes were read, what the turn over them came to, and whether what it printed could be written.
#[derive(Clone, Copy)]
struct Turned {
    got: usize,
    ran: Ran,
    sent: bool,
}

// Reads until the buffer is full, the input ends or a read fails, and tells how many bytes it put at the front.
fn read_full(mut stdin: Stdin, buffer: &mut [u8]) -> usize
    ensures { result ≤ length buffer.new }
{
    let mut done = 0;
    while done < buffer.len() {
        let got = stdin.read(&mut buffer[done..]).unwrap_or(0);
        if got == 0 {
            break;
        }
        done += got;
    }
    done
}

// Reads the next frame, to its end even if it comes in small pieces, and answers how many bytes it is: two for the length, and as many as
// follow it. Fewer where the input ends.
fn read_frame(stdin: Stdin, bytes: &mut [u8]) -> usize
    requires { max_frame + 2 ≤ length bytes.old }
    ensures { (result ≤ max_frame + 2) × (result ≤ following (take result bytes.new) + 2) }
{
    let got = read_full(stdin, &mut bytes[..2]);
    if got < 2 {
        return got;
    }
    let n = session::following(&bytes[..2]);
    got + read_full(stdin, &mut bytes[2..n + 2])
}

// Reads a frame into bytes and answers it, with out for what it prints.
fn turn(
    stdin: Stdin,
    stdout: Stdout,
    state: State,
    bytes: &mut [u8],
    list: &mut [u32],
    out: &mut [u8],
) -> Turned
    requires max_frame_in_bounds { max_frame + 2 ≤ length bytes.old }
    requires list_in_bounds { room (length list.old) ≤ length out.old }
    ensures { Lends program_words state list.old list.new (take result.got bytes.new)
        out.old out.new result.ran }
{
    let mut work = [0u64; session::WORDS];
    let got = read_frame(stdin, bytes);
    let ran = session::step(state, &bytes[..got], &mut work, list, out);
    let sent = stdout.write_all(&out[..ran.written]).is_ok();
    Turned { got, ran, sent }
}

// Reads and answers frames, as long as there is more to do and what is printed can be written, and tells whether all of it was.
fn answer_all(stdin: Stdin, stdout: Stdout) -> bool
    ensures { Answered result }
{
    let mut state = session::unopened();
    let mut bytes = [0u8; session::FRAME_BYTES];
    let mut list = [0u32; session::WORDS];
    let mut out = [0u8; session::PRINTED_BYTES];
    let mut turns = u64::MAX;
    while turns > 0 {
        let turned = turn(stdin, stdout, state, &mut bytes, &mut list, &mut out);
        let ran = turned.ran;
        let next = ran.state;
        state = next;
        if !turned.sent {
            return false;
        }
        if !ran.more {
            return true;
        }
        turns -= 1;
    }
    true
}

fn main(rt: HostRuntime) -> io::Result<()> {
    if answer_all(rt.stdin(), rt.stdout()) {
        Ok(())
    } else {
        rt.stderr().write_all(b"dating: cannot write\n")
    }
}
