// A draft is a list of edits and undos, as words of a history, that are made all or none. What is promised is stated in crate register (specs/Drafts.antt).
ghost use Rattle.register.specs.Drafts.{Drafts};

use register::{Applied, Register};

// Every call of a draft, or none.
pub fn apply_all(register: Register, calls: &[u64]) -> Applied
    ensures { Drafts register calls.now result }
{
    register.apply_all(calls)
}
