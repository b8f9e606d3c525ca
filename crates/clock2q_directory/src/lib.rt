//! The keys that a cache knows, and where each is: [`Directory`](directory::Directory) owns the keys
//! of the residents and the remembered ones, and the index of all of them. It is made of
//!
//! - [`Keys`](keys::Keys): keys by number, each with its hash and a value;
//! - [`Index`](index::Index): where each known key is, under its hash;
//! - [`Ghost`](history::Ghost): the remembered keys, each at a place, and the order of the places.
//!
//! Constructors and [`grow`](directory::Directory::grow) take all the memory that will be needed until
//! the next `grow`, and no other call can fail.
#![tactic(auto)]

pub mod directory;
pub mod handle;
pub mod history;
pub mod index;
pub mod keys;
pub mod newcomer;
