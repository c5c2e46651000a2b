// Reads the cases of the expression reader, and writes a line for each: the numbers of its code, or the number of the cause.
#![tactic(auto)]

ghost use Rattle.std.specs.Prelude.{◌≡◌, ℕ, ◌≤◌, length};
ghost use Rattle.reader.specs.declared.Answer.TheVariants.{Accepted};

use reader::{Answer, Reading};
use std::io;
use std::io::Stdout;

// The first n numbers, each after a space.
fn write_numbers(stdout: Stdout, code: &[u64], n: usize) -> io::Result<()>
    requires { n ≤ length code.now }
{
    for i in 0..n {
        stdout.write_all(b" ")?;
        stdout.print(code[i])?;
    }
    Ok(())
}

fn write_answer(stdout: Stdout, r: Reading) -> io::Result<()>
    requires { (n : ℕ) → r.answer ≡ Accepted n → n ≤ 256 }
{
    let answer = r.answer;
    let code = r.code;
    match answer {
        Answer::Accepted(n) => {
            stdout.write_all(b": accepted")?;
            write_numbers(stdout, &code, n)?;
        }
        Answer::Refused(k) => {
            stdout.write_all(b": refused ")?;
            stdout.print(k as u64)?;
        }
    }
    stdout.write_all(b"\n")
}

// The answer to a text, after its name.
fn show_as(stdout: Stdout, name: &[u8], text: &[u8]) -> io::Result<()> {
    stdout.write_all(name)?;
    write_answer(stdout, reader::read(text))
}

// The answer to a text that can be written as it is.
fn show(stdout: Stdout, text: &[u8]) -> io::Result<()> {
    show_as(stdout, text, text)
}

// One operator, and two of them.
fn operators(stdout: Stdout) -> io::Result<()> {
    show(stdout, b"a")?;
    show(stdout, b"a*")?;
    show(stdout, b"a+")?;
    show(stdout, b"a?")?;
    show(stdout, b"a/b")?;
    show(stdout, b"a|b")?;
    show(stdout, b"a/b|c")?;
    show(stdout, b"a|b/c")
}

// Groups, and ^ before a mark, a group and a letter.
fn groups(stdout: Stdout) -> io::Result<()> {
    show(stdout, b"a|b|c")?;
    show(stdout, b"(a|b)/c")?;
    show(stdout, b"^a")?;
    show(stdout, b"^a*")?;
    show(stdout, b"(^a)*")?;
    show(stdout, b"^(a/b)")?;
    show(stdout, b"(a|b|^a|^b)*")
}

// Negated sets: of one member and of many, under ^ and a mark.
fn sets(stdout: Stdout) -> io::Result<()> {
    show(stdout, b"!a")?;
    show(stdout, b"!^a")?;
    show(stdout, b"!(a|^b|c)")?;
    show(stdout, b"!(a|a)")?;
    show(stdout, b"^!a*")?;
    show(stdout, b"!(a|b)/c")?;
    show_as(
        stdout,
        b"every letter left out",
        b"!(a|b|c|d|e|f|g|h|i|j|k|l|m|n|o|p|q|r|s|t|u|v|w|x|y|z)",
    )
}

// Sets at the limits and past them: the parentheses of a set are no group, and a set is one letter.
fn limits_of_sets(stdout: Stdout) -> io::Result<()> {
    show_as(stdout, b"a set at depth 8", b"((((((((!(a|b)))))))))")?;
    show_as(stdout, b"a set at depth 9", b"(((((((((!(a|b))))))))))")?;
    show_as(
        stdout,
        b"63 sets",
        b"!a/!a/!a/!a/!a/!a/!a/!a/!a/!a/!a/!a/!a/!a/!a/!a/!a/!a/!a/!a/!a/!a/!a/!a/!a/!a/!a/!a/!a/!a/!a/!a/!a/!a/!a/!a/!a/!a/!a/!a/!a/!a/!a/!a/!a/!a/!a/!a/!a/!a/!a/!a/!a/!a/!a/!a/!a/!a/!a/!a/!a/!a/!a",
    )?;
    show_as(
        stdout,
        b"64 sets",
        b"!a/!a/!a/!a/!a/!a/!a/!a/!a/!a/!a/!a/!a/!a/!a/!a/!a/!a/!a/!a/!a/!a/!a/!a/!a/!a/!a/!a/!a/!a/!a/!a/!a/!a/!a/!a/!a/!a/!a/!a/!a/!a/!a/!a/!a/!a/!a/!a/!a/!a/!a/!a/!a/!a/!a/!a/!a/!a/!a/!a/!a/!a/!a/!a",
    )
}

// Sets that are none.
fn faulty_sets(stdout: Stdout) -> io::Result<()> {
    show(stdout, b"!")?;
    show(stdout, b"!()")?;
    show(stdout, b"!(a")?;
    show(stdout, b"!(a|)")?;
    show(stdout, b"!((a))")?;
    show(stdout, b"!(a*)")?;
    show(stdout, b"!(a/b)")?;
    show(stdout, b"!!a")?;
    show(stdout, b"!^^a")?;
    show(stdout, b"^^!a")
}

// Texts at the limits and past them.
fn limits(stdout: Stdout) -> io::Result<()> {
    show_as(stdout, b"depth 8", b"((((((((a))))))))")?;
    show_as(stdout, b"depth 9", b"(((((((((a)))))))))")?;
    show_as(
        stdout,
        b"63 letters",
        b"a/a/a/a/a/a/a/a/a/a/a/a/a/a/a/a/a/a/a/a/a/a/a/a/a/a/a/a/a/a/a/a/a/a/a/a/a/a/a/a/a/a/a/a/a/a/a/a/a/a/a/a/a/a/a/a/a/a/a/a/a/a/a",
    )?;
    show_as(
        stdout,
        b"64 letters",
        b"a/a/a/a/a/a/a/a/a/a/a/a/a/a/a/a/a/a/a/a/a/a/a/a/a/a/a/a/a/a/a/a/a/a/a/a/a/a/a/a/a/a/a/a/a/a/a/a/a/a/a/a/a/a/a/a/a/a/a/a/a/a/a/a",
    )?;
    show_as(
        stdout,
        b"256 bytes",
        b"^(a)*/^(a)*/^(a)*/^(a)*/^(a)*/^(a)*/^(a)*/^(a)*/^(a)*/^(a)*/^(a)*/^(a)*/^(a)*/^(a)*/^(a)*/^(a)*/^(a)*/^(a)*/^(a)*/^(a)*/^(a)*/^(a)*/^(a)*/^(a)*/^(a)*/^(a)*/^(a)*/^(a)*/^(a)*/^(a)*/^(a)*/^(a)*/^(a)*/^(a)*/^(a)*/^(a)*/^(a)*/^(a)*/^(a)*/^(a)*/^(a)*/(^a/^b/c)*",
    )?;
    show_as(
        stdout,
        b"257 bytes",
        b"^(a)*/^(a)*/^(a)*/^(a)*/^(a)*/^(a)*/^(a)*/^(a)*/^(a)*/^(a)*/^(a)*/^(a)*/^(a)*/^(a)*/^(a)*/^(a)*/^(a)*/^(a)*/^(a)*/^(a)*/^(a)*/^(a)*/^(a)*/^(a)*/^(a)*/^(a)*/^(a)*/^(a)*/^(a)*/^(a)*/^(a)*/^(a)*/^(a)*/^(a)*/^(a)*/^(a)*/^(a)*/^(a)*/^(a)*/^(a)*/^(a)*/(^a/^b/^c)*",
    )
}

// Texts that are outside the grammar and past a limit.
fn limits_and_faults(stdout: Stdout) -> io::Result<()> {
    show_as(
        stdout,
        b"257 bytes outside the grammar",
        b"(((((((((((((((((((((((((((((((((((((((((((((((((((((((((((((((((((((((((((((((((((((((((((((((((((((((((((((((((((((((((((((((((((((((((((((((((((((((((((((((((((((((((((((((((((((((((((((((((((((((((((((((((((((((((((((((((((((((((((((((((((((((((((((((((",
    )?;
    show_as(stdout, b"nine unclosed groups", b"(((((((((a")?;
    show_as(
        stdout,
        b"64 letters and a fault",
        b"a/a/a/a/a/a/a/a/a/a/a/a/a/a/a/a/a/a/a/a/a/a/a/a/a/a/a/a/a/a/a/a/a/a/a/a/a/a/a/a/a/a/a/a/a/a/a/a/a/a/a/a/a/a/a/a/a/a/a/a/a/a/a/a)",
    )?;
    show_as(
        stdout,
        b"256 bytes outside the grammar",
        b"((((((((((((((((((((((((((((((((((((((((((((((((((((((((((((((((((((((((((((((((((((((((((((((((((((((((((((((((((((((((((((((((((((((((((((((((((((((((((((((((((((((((((((((((((((((((((((((((((((((((((((((((((((((((((((((((((((((((((((((((((((((((((((((((",
    )
}

// Bytes that no expression has.
fn foreign_bytes(stdout: Stdout) -> io::Result<()> {
    show_as(stdout, b"the empty text", b"")?;
    show_as(stdout, b"a capital", b"A")?;
    show_as(stdout, b"a space", b"a b")?;
    show_as(stdout, b"a control byte", b"a\n")?;
    show_as(stdout, b"a zero byte", b"a\0")?;
    show_as(stdout, b"a byte above 127", b"a\xff")?;
    show(stdout, b"ab")?;
    show(stdout, b"{")?;
    show(stdout, b"`")
}

// Marks and groups out of place.
fn misplaced_marks(stdout: Stdout) -> io::Result<()> {
    show(stdout, b"()")?;
    show(stdout, b"a**")?;
    show(stdout, b"a*+")?;
    show(stdout, b"^^a")?;
    show(stdout, b"^")?;
    show(stdout, b"*")
}

// Operators and groups with a side missing.
fn missing_sides(stdout: Stdout) -> io::Result<()> {
    show(stdout, b"a//b")?;
    show(stdout, b"|a")?;
    show(stdout, b"a|")?;
    show(stdout, b"a/")?;
    show(stdout, b"(a")?;
    show(stdout, b"a)")
}

// An expression that starts in the middle of a slice, and a place past its end.
fn parts(stdout: Stdout) -> io::Result<()> {
    stdout.write_all(b"a/b from place 4")?;
    write_answer(stdout, reader::read_at(b"(*|)a/b", 4))?;
    stdout.write_all(b"a/b from place 8")?;
    write_answer(stdout, reader::read_at(b"(*|)a/b", 8))
}

fn main(rt: HostRuntime) -> io::Result<()> {
    let stdout = rt.stdout();
    operators(stdout)?;
    groups(stdout)?;
    sets(stdout)?;
    limits(stdout)?;
    limits_of_sets(stdout)?;
    limits_and_faults(stdout)?;
    foreign_bytes(stdout)?;
    misplaced_marks(stdout)?;
    missing_sides(stdout)?;
    faulty_sets(stdout)?;
    parts(stdout)
}
