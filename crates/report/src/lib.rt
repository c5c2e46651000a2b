// The program's lines, written into a lent slice of bytes from a place on. What they are is defined in specs/Report.antt.
// Each function hands back the place after what it wrote; the bytes before and after are as they were (specs/Written.antt).
#![tactic(auto)]

ghost use Rattle.std.specs.Prelude.{[], ◌∷◌, ◌+◌, ◌*◌, ◌≤◌, ◌<◌, length, ◌≡◌};
ghost use Rattle.report.specs.Report.{decimal, counted, pair_line, step_line, label_letter, sense_sign, ok_text, none_text, refused_text, pairs_text};
ghost use Rattle.report.specs.Report.{chain_text};
ghost use Rattle.report.specs.Report.{answer_text, total_text};
ghost use Rattle.answers.specs.Written.{Wrote};

// A pair word is from times this, and to; a step word its letter times this, and the record reached.
const RECORD_UNIT: u32 = book::MAX_RECORDS as u32;

pub fn put_byte(b: u8, out: &mut [u8], at: usize) -> usize
    requires { at < length out.old }
    ensures { Wrote at (b ∷ []) out.old out.new result }
{
    out[at] = b;
    at + 1
}

pub fn put_text(text: &[u8], out: &mut [u8], at: usize) -> usize
    requires { at + length text.now ≤ length out.old }
    ensures { Wrote at text.now out.old out.new result }
{
    answers::copy_u8(text, out, at)
}

pub fn put_decimal(n: u64, out: &mut [u8], at: usize) -> usize
    requires { at + length (decimal n) ≤ length out.old }
    ensures { Wrote at (decimal n) out.old out.new result }
{
    if n < 10 {
        return put_byte(48 + n as u8, out, at);
    }
    let next = put_decimal(n / 10, out, at);
    put_byte(48 + (n % 10) as u8, out, next)
}

// A line of a name and a number.
fn put_counted(name: &[u8], k: u64, out: &mut [u8], at: usize) -> usize
    requires { at + length (counted name.now k) ≤ length out.old }
    ensures { Wrote at (counted name.now k) out.old out.new result }
{
    let next = put_text(name, out, at);
    let end = put_decimal(k, out, next);
    put_byte(b'\n', out, end)
}

pub fn put_ok(out: &mut [u8], at: usize) -> usize
    requires { at + 3 ≤ length out.old }
    ensures { Wrote at ok_text out.old out.new result }
{
    put_text(b"ok\n", out, at)
}

pub fn put_none(out: &mut [u8], at: usize) -> usize
    requires { at + 5 ≤ length out.old }
    ensures { Wrote at none_text out.old out.new result }
{
    put_text(b"none\n", out, at)
}

pub fn put_refused(k: u32, out: &mut [u8], at: usize) -> usize
    requires { at + 29 ≤ length out.old }
    ensures { Wrote at (refused_text k) out.old out.new result }
{
    put_counted(b"refused ", k as u64, out, at)
}

// The text of an edit's answer, 0 if it is accepted.
pub fn put_answer(k: u32, out: &mut [u8], at: usize) -> usize
    requires { at + 29 ≤ length out.old }
    ensures { Wrote at (answer_text k) out.old out.new result }
{
    if k == 0 {
        return put_ok(out, at);
    }
    put_refused(k, out, at)
}

pub fn put_total(t: u64, out: &mut [u8], at: usize) -> usize
    requires { at + 27 ≤ length out.old }
    ensures { Wrote at (total_text 0 t) out.old out.new result }
{
    put_counted(b"total ", t, out, at)
}

fn put_pair(w: u32, out: &mut [u8], at: usize) -> usize
    requires { at + 13 ≤ length out.old }
    ensures { Wrote at (pair_line w) out.old out.new result }
{
    let next = put_decimal((w / RECORD_UNIT) as u64, out, at);
    put_counted(b" ", (w % RECORD_UNIT) as u64, out, next)
}

// How many labels there are, in the type of a word.
const LABELS: u32 = book::LABELS as u32;

fn label_letter(k: u32) -> u8
    ensures { result ≡ label_letter k }
{
    if k < LABELS { b'a' + k as u8 } else { b'?' }
}

fn sense_sign(s: u32) -> u8
    ensures { result ≡ sense_sign s }
{
    if s == 0 { b'+' } else { b'-' }
}

fn put_step(w: u32, out: &mut [u8], at: usize) -> usize
    requires { at + 9 ≤ length out.old }
    ensures { Wrote at (step_line w) out.old out.new result }
{
    let head = [
        label_letter(w / RECORD_UNIT / 2),
        b' ',
        sense_sign(w / RECORD_UNIT % 2),
        b' ',
    ];
    put_counted(&head, (w % RECORD_UNIT) as u64, out, at)
}

// The number of pairs, and a line for each that is listed.
pub fn put_pairs(total: u64, words: &[u32], out: &mut [u8], at: usize) -> usize
    requires { at + 27 + 13 * length words.now ≤ length out.old }
    ensures { Wrote at (pairs_text total words.now) out.old out.new result }
{
    let mut end = put_counted(b"pairs ", total, out, at);
    for i in 0..words.len() {
        end = put_pair(words[i], out, end);
    }
    end
}

pub fn put_chain(words: &[u32], out: &mut [u8], at: usize) -> usize
    requires { at + 27 + 9 * length words.now ≤ length out.old }
    ensures { Wrote at (chain_text words.now) out.old out.new result }
{
    let mut end = put_counted(b"chain ", words.len() as u64, out, at);
    for i in 0..words.len() {
        end = put_step(words[i], out, end);
    }
    end
}
