//! What the test crates share: comparisons, bytes and words that lines of data spell, an allocator that refuses
//! chosen requests for memory, numbers determined by a seed, hashers that spread keys badly, and keys
//! that count what is done with them.
#![tactic(auto)]

mod comparing;
mod counted;
mod linear_hash;
mod playing;
mod refusing;
mod spelling;
mod split_mix;
mod trying;
mod words;

pub use comparing::{same, same_at};
pub use counted::{Counted, CountedHashes, Counts};
pub use linear_hash::{LinearHashBuilder, LinearHasher};
pub use playing::play_cases;
pub use refusing::Refusing;
pub use spelling::{SpellingError, other_than, spelled, spelling_of};
pub use split_mix::SplitMix64;
pub use trying::{Tried, try_in_turn};
pub use words::{named_in, number_of, two_numbers, two_words};
