// A draft: a list of edits and undos, as words of a history, made all or none. They are made on copies of the register's arrays; if one is refused, the
// register as it was is handed back. What is promised is stated in specs/Drafts.antt.
ghost use Rattle.register.specs.History.{word_call};
ghost use Rattle.register.specs.Drafts.{unclosed, Drafts};
ghost use Rattle.register.specs.Inner.{register_of, outcome_of, AsLong, DraftSteps};

use crate::edits::edit;
use crate::history::entry_at;
use crate::state::number_of;
use crate::{Answer, Applied, Counters, DraftAnswer, Edited, Entry, Register};

// One call of a draft; a word that is none gives 15.
fn edit_word(
    counters: Counters,
    links: &mut [u32],
    marks: &mut [u32],
    ring: &mut [u32],
    totals: &mut [u32],
    word: u64,
) -> Edited
    requires { AsLong links.old marks.old ring.old totals.old }
    ensures { DraftSteps (register_of counters links.old marks.old ring.old totals.old)
        (unclosed (word_call «word»)) (outcome_of result links.new marks.new ring.new totals.new) }
{
    let entry = entry_at(word);
    match entry {
        Entry::Call(call) => edit(counters, links, marks, ring, totals, call),
        Entry::NoCall => Edited {
            counters,
            answer: Answer::Refused(book::UNKNOWN_KIND),
        },
    }
}

impl Register {
    // Every call of a draft, or none.
    pub fn apply_all(self, calls: &[u64]) -> Applied
        ensures { Drafts self calls.now result }
    {
        let mut counters = Counters {
            n: self.n,
            count: self.count,
            top: self.top,
            held: self.held,
        };
        let mut links = self.links;
        let mut marks = self.marks;
        let mut ring = self.ring;
        let mut totals = self.totals;
        for i in 0..calls.len() {
            let edited = edit_word(
                counters,
                &mut links,
                &mut marks,
                &mut ring,
                &mut totals,
                calls[i],
            );
            let answer = edited.answer;
            let number = number_of(answer);
            if number != 0 {
                return Applied {
                    register: self,
                    answer: DraftAnswer::Refused(i, number),
                };
            }
            counters = edited.counters;
        }
        Applied {
            register: Register {
                n: counters.n,
                count: counters.count,
                links,
                marks,
                ring,
                top: counters.top,
                held: counters.held,
                totals,
            },
            answer: DraftAnswer::Made,
        }
    }
}
