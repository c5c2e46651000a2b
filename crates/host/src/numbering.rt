// Generations, over a register that the caller keeps as words. (A module cannot have the name of the crate that it calls.)
ghost use Rattle.std.specs.Prelude.{◌≡◌, ◌^◌, ◌≤◌, length};
ghost use Rattle.answers.specs.Answers.{counted};
ghost use Rattle.generations.specs.Generating.{generations_counted, Generates};
ghost use Rattle.host.specs.Host.{Asked};
ghost use Rattle.host.specs.Generations.{told_generations};

use answers::{PAST_COUNTS, told_refusal};
use generations::GenerationsAnswer;
use register::Register;

// The answer told as 64 bits.
fn told_generations(answer: GenerationsAnswer) -> u64
    requires { counted (generations_counted answer) ≤ 2 ^ 62 }
    ensures { result ≡ told_generations answer }
{
    match answer {
        GenerationsAnswer::Numbers(count) => count as u64,
        GenerationsAnswer::Loop(steps) => PAST_COUNTS + steps as u64,
        GenerationsAnswer::Refused(number) => told_refusal(number),
    }
}

// The numbers of the records in use, by the longest run of links of the labels that ends at each; or the first loop of such links.
#[unsafe(no_mangle)]
pub extern "C" fn dating_generations(
    state: &[u32],
    labels: &[u8],
    work: &mut [u64],
    list: &mut [u32],
) -> u64
    ensures { Asked state.now (λ r. Generates r labels.now (length work.old) list.old list.new)
        told_generations list.old list.new result }
{
    let loaded = Register::load(state);
    let answer = loaded.answer;
    if register::number_of(answer) != 0 {
        return told_refusal(book::NOT_OPEN);
    }
    told_generations(generations::generations(loaded.register, labels, work, list))
}
