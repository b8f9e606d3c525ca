//! What a call did for the slot of a key.

/// What [`enter`](crate::Cache::enter) did for a key. A hit evicts nothing.
///
/// # Example
///
/// ```
/// let (slot, page, entered) = frames.enter(number, || None);
/// if entered.has_evicted {
///     write(slot, *page);
/// }
/// if !entered.is_hit {
///     *page = Some(number);
///     read(slot, number);
/// }
/// ```
#[derive(Clone, Copy, Debug, PartialEq)]
pub struct Entered {
    /// Whether the key was resident, and was hit.
    pub is_hit: bool,
    /// Whether another resident was evicted, whose slot the key got.
    pub has_evicted: bool,
}
