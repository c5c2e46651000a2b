// Frames, written at the front of a lent slice. Each function hands back how many bytes it wrote; those after them are as they were.
ghost use Rattle.std.specs.Prelude.{◌∷◌, ◌++◌, ◌+◌, ◌≤◌, length};
ghost use Rattle.answers.specs.Written.{Wrote};
ghost use Rattle.session.specs.Program.{two_bytes, frame_of};
ghost use Rattle.lines.specs.Typed.{max_text};
ghost use Rattle.lines.specs.Encoding.{frame_room};
ghost use Rattle.lines.specs.TypedRuns.{max_body};

// A frame whose body is two texts one after the other.
pub fn put_frame(kind: u8, head: &[u8], text: &[u8], out: &mut [u8]) -> usize
    requires text_len_bound { length head.now + length text.now ≤ max_body }
    requires frame_room_in_bounds { frame_room ≤ length out.old }
    ensures { Wrote 0 (frame_of kind (head.now ++ text.now)) out.old out.new result }
{
    let n = head.len() + text.len() + 2;
    let start = [(n % 256) as u8, (n / 256) as u8, kind, 0];
    let body = report::put_text(&start, out, 0);
    let rest = report::put_text(head, out, body);
    report::put_text(text, out, rest)
}

pub fn put_number(kind: u8, n: u16, out: &mut [u8]) -> usize
    requires { frame_room ≤ length out.old }
    ensures { Wrote 0 (frame_of kind (two_bytes n)) out.old out.new result }
{
    put_frame(kind, &[(n % 256) as u8, (n / 256) as u8], b"", out)
}

pub fn put_link(kind: u8, x: u16, l: u8, y: u16, out: &mut [u8]) -> usize
    requires { frame_room ≤ length out.old }
    ensures { Wrote 0 (frame_of kind (two_bytes x ++ (l ∷ two_bytes y))) out.old out.new result }
{
    let body = [
        (x % 256) as u8,
        (x / 256) as u8,
        l,
        (y % 256) as u8,
        (y / 256) as u8,
    ];
    put_frame(kind, &body, b"", out)
}

pub fn put_ends(kind: u8, x: u16, y: u16, text: &[u8], out: &mut [u8]) -> usize
    requires text_len_bound { length text.now ≤ max_text }
    requires frame_room_in_bounds { frame_room ≤ length out.old }
    ensures { Wrote 0 (frame_of kind (two_bytes x ++ (two_bytes y ++ text.now))) out.old out.new result }
{
    let head = [
        (x % 256) as u8,
        (x / 256) as u8,
        (y % 256) as u8,
        (y / 256) as u8,
    ];
    put_frame(kind, &head, text, out)
}
