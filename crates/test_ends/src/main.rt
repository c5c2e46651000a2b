// Asks for the ends and the starts of records of small registers, and prints each question with its answer.
#![tactic(auto)]

use answers::Counted;
use register::Register;
use std::io;
use std::io::Stdout;

fn print(stdout: Stdout, bytes: &[u8]) -> io::Result<()> {
    stdout.write_all(bytes)
}

fn print_number(stdout: Stdout, x: u64) -> io::Result<()> {
    stdout.print(x)
}

// The whole list as it was lent, so that words past the ends are seen too.
fn print_list(stdout: Stdout, list: &[u32]) -> io::Result<()> {
    for i in 0..list.len() {
        print(stdout, b" ")?;
        print_number(stdout, list[i] as u64)?;
    }
    print(stdout, b"\n")
}

// What is asked: a record and an expression.
fn print_question(stdout: Stdout, record: u16, text: &[u8]) -> io::Result<()> {
    print_number(stdout, record as u64)?;
    print(stdout, b" ")?;
    print(stdout, text)?;
    print(stdout, b"\n")
}

fn print_answer(stdout: Stdout, answer: Counted) -> io::Result<()> {
    match answer {
        Counted::Count(total) => {
            print(stdout, b" ")?;
            print_number(stdout, total as u64)?;
            print(stdout, b":")?;
        }
        Counted::Refused(number) => {
            print(stdout, b" refused ")?;
            print_number(stdout, number as u64)?;
            print(stdout, b":")?;
        }
    }
    Ok(())
}

// The ends of a record in the list that is lent.
fn lent(
    stdout: Stdout,
    register: Register,
    from: u16,
    text: &[u8],
    list: &mut [u32],
) -> io::Result<()> {
    print_question(stdout, from, text)?;
    print(stdout, b"ends")?;
    print_answer(stdout, ends::ends(register, from, text, list))?;
    print_list(stdout, list)
}

// Its starts.
fn lent_starts(
    stdout: Stdout,
    register: Register,
    to: u16,
    text: &[u8],
    list: &mut [u32],
) -> io::Result<()> {
    print(stdout, b"starts")?;
    print_answer(stdout, ends::starts(register, to, text, list))?;
    print_list(stdout, list)
}

// Both questions of a register of four records at most; 9 stands in every word of the list before.
fn ask(stdout: Stdout, register: Register, at: u16, text: &[u8]) -> io::Result<()> {
    let mut list = [9u32; 5];
    lent(stdout, register, at, text, &mut list)?;
    let mut others = [9u32; 5];
    lent_starts(stdout, register, at, text, &mut others)
}

// The register with a link more.
fn linked(register: Register, from: u16, label: u8, to: u16) -> Register {
    let outcome = register.add(from, label, to);
    outcome.register
}

// Links 0 a 1, 1 a 2, 2 b 0; n = 4.
fn sheet() -> Register {
    let opened = Register::fresh(4);
    linked(linked(linked(opened.register, 0, 0, 1), 1, 0, 2), 2, 1, 0)
}

// The expressions of K8 to K11 and others; the last two are each other's other sense.
fn known(stdout: Stdout) -> io::Result<()> {
    let register = sheet();
    ask(stdout, register, 2, b"(a|b)+")?;
    ask(stdout, register, 0, b"a*")?;
    ask(stdout, register, 0, b"a+")?;
    ask(stdout, register, 0, b"a/a|^b")?;
    ask(stdout, register, 0, b"(a|b|^a|^b)*")?;
    ask(stdout, register, 3, b"(a|b|^a|^b)*")?;
    ask(stdout, register, 3, b"a")?;
    ask(stdout, register, 0, b"^(a/b)")?;
    ask(stdout, register, 1, b"!(b)")?;
    ask(stdout, register, 1, b"a/b|a")?;
    ask(stdout, register, 0, b"^(a/b|a)")
}

// A ring of three: of the wrong lengths, and all of them.
fn ring(stdout: Stdout) -> io::Result<()> {
    let opened = Register::fresh(3);
    let register = linked(linked(linked(opened.register, 0, 0, 1), 1, 0, 2), 2, 0, 0);
    ask(stdout, register, 0, b"a/a/a/a")?;
    ask(stdout, register, 0, b"(a/a/a)+")?;
    ask(stdout, register, 0, b"(a/a)+")?;
    ask(stdout, register, 0, b"a/^a/a")
}

// A withdrawn record has no ends and no starts and is none, not even its own by zero steps; reinstated it is again.
fn withdrawn(stdout: Stdout) -> io::Result<()> {
    let register = sheet();
    let gone = register.withdraw(3);
    ask(stdout, gone.register, 3, b"a*")?;
    ask(stdout, gone.register, 0, b"(a|b)*")?;
    let back = gone.register.reinstate(3);
    ask(stdout, back.register, 3, b"a*")
}

// The first part of the ends and of the starts, with their number in all.
fn first_part(stdout: Stdout) -> io::Result<()> {
    let register = sheet();
    let mut none = [9u32; 0];
    let mut one = [9u32; 1];
    let mut two = [9u32; 2];
    lent(stdout, register, 1, b"(a|b)+", &mut none)?;
    lent(stdout, register, 1, b"(a|b)+", &mut one)?;
    lent(stdout, register, 1, b"(a|b)+", &mut two)?;
    let mut start = [9u32; 1];
    lent_starts(stdout, register, 1, b"(a|b)+", &mut start)
}

// The causes in their order.
fn refusals(stdout: Stdout) -> io::Result<()> {
    let register = sheet();
    ask(stdout, register, 4, b"a**")?;
    ask(stdout, register, 4, b"a")?;
    ask(stdout, register, 0, b"a**")?;
    ask(stdout, register, 0, b"(((((((((a)))))))))")
}

fn main(rt: HostRuntime) -> io::Result<()> {
    let stdout = rt.stdout();
    known(stdout)?;
    ring(stdout)?;
    withdrawn(stdout)?;
    first_part(stdout)?;
    refusals(stdout)
}
