// The answer of a chain question told as a number of 64 bits: how many steps; 2^32 where there is no chain; or a refusal.
ghost use Rattle.std.specs.Prelude.{◌≡◌};
ghost use Rattle.host.specs.Host.{told_chain};

use answers::{PAST_COUNTS, told_refusal};
use chains::ChainAnswer;

// A chain question's answer told as 64 bits.
pub fn told_chain(answer: ChainAnswer) -> u64
    ensures { result ≡ told_chain answer }
{
    match answer {
        ChainAnswer::Chain(steps) => steps as u64,
        ChainAnswer::NoChain => PAST_COUNTS,
        ChainAnswer::Refused(number) => told_refusal(number),
    }
}
