//! Tests of caches against plain lists: long lists of calls drawn from seeds, large caches whose keys
//! hash alike, and runs of millions of accesses.
#![tactic(auto)]

#[cfg(test)]
mod accesses;
#[cfg(test)]
mod called;
#[cfg(test)]
mod calls;
#[cfg(test)]
mod crowded;
#[cfg(test)]
mod model;
#[cfg(test)]
mod scale;
#[cfg(test)]
mod seeded;
#[cfg(test)]
mod stream;
#[cfg(test)]
mod tested;
