// Asks chain questions of small registers, and prints each with its answer, as the program prints it.
#![tactic(auto)]

ghost use Rattle.std.specs.Prelude.{◌≤◌, length};

use chains::ChainAnswer;
use register::Register;
use std::io;
use std::io::Stdout;

fn print(stdout: Stdout, bytes: &[u8]) -> io::Result<()> {
    stdout.write_all(bytes)
}

fn print_number(stdout: Stdout, x: u64) -> io::Result<()> {
    stdout.print(x)
}

// A step: letter, + forward or - against, record reached.
fn print_step(stdout: Stdout, word: u32) -> io::Result<()> {
    let letter = [(word / 2048 % 26) as u8 + b'a'];
    print(stdout, &letter)?;
    if word / 1024 % 2 == 0 {
        print(stdout, b" + ")?;
    } else {
        print(stdout, b" - ")?;
    }
    print_number(stdout, (word % 1024) as u64)?;
    print(stdout, b"\n")
}

fn print_steps(stdout: Stdout, list: &[u32], count: usize) -> io::Result<()>
    requires { count ≤ length list.now }
{
    for i in 0..count {
        print_step(stdout, list[i])?;
    }
    Ok(())
}

// A question with the work and the list that are lent.
fn lent(
    stdout: Stdout,
    register: Register,
    from: u16,
    to: u16,
    text: &[u8],
    work: &mut [u64],
    list: &mut [u32],
) -> io::Result<()> {
    print_number(stdout, from as u64)?;
    print(stdout, b" to ")?;
    print_number(stdout, to as u64)?;
    print(stdout, b" ")?;
    print(stdout, text)?;
    print(stdout, b"\n")?;
    let answer = chains::chain(register, from, to, text, work, list);
    match answer {
        ChainAnswer::Chain(steps) => {
            print(stdout, b"chain ")?;
            print_number(stdout, steps as u64)?;
            print(stdout, b"\n")?;
            print_steps(stdout, list, steps)?;
        }
        ChainAnswer::NoChain => print(stdout, b"none\n")?,
        ChainAnswer::Refused(number) => {
            print(stdout, b"refused ")?;
            print_number(stdout, number as u64)?;
            print(stdout, b"\n")?;
        }
    }
    Ok(())
}

// A question of a register of four records at most.
fn ask(stdout: Stdout, register: Register, from: u16, to: u16, text: &[u8]) -> io::Result<()> {
    let mut work = [0u64; 256];
    let mut list = [0u32; 8];
    lent(stdout, register, from, to, text, &mut work, &mut list)
}

// The register with a link more.
fn linked(register: Register, from: u16, label: u8, to: u16) -> Register {
    let outcome = register.add(from, label, to);
    outcome.register
}

// Links 0 a 1, 1 a 2, 2 b 0; n = 4.
fn sheet() -> Register {
    let opened = Register::fresh(4);
    linked(linked(linked(opened.register, 0, 0, 1), 1, 0, 2), 2, 1, 0)
}

// K8 to K11, and the inverse of a group.
fn known(stdout: Stdout) -> io::Result<()> {
    let register = sheet();
    ask(stdout, register, 2, 2, b"(a|b)+")?;
    ask(stdout, register, 0, 0, b"a*")?;
    ask(stdout, register, 0, 2, b"a/a|^b")?;
    ask(stdout, register, 0, 3, b"(a|b|^a|^b)*")?;
    ask(stdout, register, 0, 1, b"^(a/b)")?;
    ask(stdout, register, 0, 1, b"^a/^b")?;
    ask(stdout, register, 0, 1, b"^((a/b)?)+")?;
    ask(stdout, register, 3, 3, b"(a*)+")?;
    ask(stdout, register, 0, 2, b"(a*)+")?;
    ask(stdout, register, 1, 1, b"(a*/b?/a*)+/b")
}

// A ring of three: more steps than records, and a chain that no shorter one of the wrong length replaces.
fn ring(stdout: Stdout) -> io::Result<()> {
    let opened = Register::fresh(3);
    let register = linked(linked(linked(opened.register, 0, 0, 1), 1, 0, 2), 2, 0, 0);
    ask(stdout, register, 0, 1, b"a/a/a/a")?;
    ask(stdout, register, 0, 1, b"(a/a)+")?;
    ask(stdout, register, 0, 0, b"(a/a)+")?;
    ask(stdout, register, 0, 0, b"(^a/^a)+")?;
    ask(stdout, register, 0, 1, b"a/^a/a")?;
    ask(stdout, register, 0, 2, b"(a/a/a)+")
}

// A link from a record to itself is crossed forward before it is crossed against its sense.
fn loops(stdout: Stdout) -> io::Result<()> {
    let opened = Register::fresh(2);
    let register = linked(linked(opened.register, 0, 0, 0), 0, 1, 1);
    ask(stdout, register, 0, 0, b"a")?;
    ask(stdout, register, 0, 0, b"^a")?;
    ask(stdout, register, 0, 0, b"^a|a")?;
    ask(stdout, register, 0, 1, b"(a|^a)/(^a|a)/b")?;
    ask(stdout, register, 1, 1, b"^b/a+/b")
}

// Ties: the smaller step word at the first difference; and two runs of which only the second leads to it.
fn ties(stdout: Stdout) -> io::Result<()> {
    let opened = Register::fresh(4);
    let register = linked(
        linked(
            linked(linked(linked(opened.register, 0, 0, 1), 1, 0, 3), 1, 1, 3),
            0,
            0,
            2,
        ),
        2,
        0,
        3,
    );
    ask(stdout, register, 0, 3, b"a/b|a/a")?;
    ask(stdout, register, 0, 3, b"a/b")?;
    ask(stdout, register, 0, 3, b"(a|b)+")?;
    ask(stdout, register, 3, 0, b"(^a|^b)+")?;
    ask(stdout, register, 3, 0, b"(^b|^a)/^a")
}

// The causes in their order.
fn refusals(stdout: Stdout) -> io::Result<()> {
    let register = sheet();
    let mut work = [0u64; 256];
    let mut list = [0u32; 8];
    let mut none = [0u32; 0];
    let mut short = [0u64; 255];
    lent(stdout, register, 4, 0, b"a**", &mut short, &mut none)?;
    lent(stdout, register, 0, 4, b"a", &mut work, &mut list)?;
    lent(stdout, register, 0, 1, b"a**", &mut short, &mut none)?;
    lent(
        stdout,
        register,
        0,
        1,
        b"(((((((((a)))))))))",
        &mut short,
        &mut none,
    )?;
    lent(stdout, register, 0, 1, b"a", &mut short, &mut none)?;
    lent(stdout, register, 0, 1, b"a", &mut work, &mut none)?;
    lent(stdout, register, 0, 0, b"a?", &mut work, &mut none)?;
    lent(stdout, register, 0, 3, b"a", &mut work, &mut none)
}

fn main(rt: HostRuntime) -> io::Result<()> {
    let stdout = rt.stdout();
    known(stdout)?;
    ring(stdout)?;
    loops(stdout)?;
    ties(stdout)?;
    refusals(stdout)
}
