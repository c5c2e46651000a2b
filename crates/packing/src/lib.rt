// k2-trees as words. making.rt has rows of bits packed into one, loading.rt a tree loaded into rows, testing.rt which
// words are a tree.
#![tactic(auto)]

mod loading;
mod making;
mod testing;

pub use loading::{Sense, load};
pub use making::pack;
pub use testing::well_formed;
