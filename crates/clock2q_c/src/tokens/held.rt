//! What a handle of tokens points to.
use crate::tokens::given::GivenHash;
use crate::tokens::token::Token;
use clock2q_cache::Cache;
use std::alloc::Allocator;
use std::hash::BuildHasherDefault;

/// A cache of tokens, without values: what a token means is the caller's.
#[derive(Drop)]
pub(crate) struct HeldTokens<A: Allocator> {
    pub(crate) cache: Cache<Token, (), BuildHasherDefault<GivenHash>, A>,
}
