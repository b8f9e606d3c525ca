//! Tests of what users call: the first example, the callers in `clock2q_uses`, memos, lists of commands,
//! texts from devices that fail, a table's closure whose answers change, and the memory that caches and
//! memos take and may be refused.
#![tactic(auto)]

#[cfg(test)]
mod caches;
#[cfg(test)]
mod calls;
#[cfg(test)]
mod constructions;
#[cfg(test)]
mod devices;
#[cfg(test)]
mod first_example;
#[cfg(test)]
mod long_texts;
#[cfg(test)]
mod memo_keys;
#[cfg(test)]
mod memos;
#[cfg(test)]
mod no_requests;
#[cfg(test)]
mod offered;
#[cfg(test)]
mod refused_runs;
#[cfg(test)]
mod refused_texts;
#[cfg(test)]
mod runs;
#[cfg(test)]
mod taken;
#[cfg(test)]
mod uses;
