//! A fixed-capacity key-value cache with Clock2Q+ replacement, its calls as data, and the handle
//! table that it looks keys up through.
//!
//! A [`Cache`] divides its capacity between two queues. New keys enter Small, or Main while the
//! cache isn't full and Small has its share. A key in Small stays young for a window of further
//! admissions to Small. A key that is hit there later moves on to Main, a ring in which a hand
//! gives each entry that was hit a second chance. Keys that Small evicts are remembered for a while
//! without their values, and one that comes back enters Main at once.
//!
//! | Capacity | Small | Main | Window | Remembered |
//! |---|---|---|---|---|
//! | 1 | 0 | 1 | 0 | 0 |
//! | 2 | 1 | 1 | 1 | 1 |
//! | 10 | 1 | 9 | 1 | 5 |
//! | 100 | 10 | 90 | 5 | 50 |
//! | 1,000,000 | 100,000 | 900,000 | 50,000 | 500,000 |
//!
//! [`Cache::with_policy`] takes other shares. The constructor takes all memory: no later call but
//! [`Cache::grow`] asks for any or refuses anything.
//!
//! # Example
//!
//! ```
//! let capacity = NonZeroUsize::new(100).ok_or("not zero")?;
//! let mut cache = Cache::new(rt.alloc(), capacity)?;
//! cache.put(1u64, 10u64);
//! assert_eq!(rt; cache.get(&1), Some(&10));
//! ```
//!
//! A test of the crate `tests_library`, `first_example`, runs these lines; `rt` is what a test or
//! `main` receives. The crate `clock2q_uses` has whole callers, each of them proved.
#![tactic(auto)]

pub use clock2q_cache as cache;
pub use clock2q_cache::{Cache, CacheError, DefaultHashBuilder, Entered, MAX_CAPACITY, Occupant};
pub use clock2q_command as command;
pub use clock2q_handles as handles;
pub use clock2q_memo as memo;
pub use clock2q_memo::Memo;
