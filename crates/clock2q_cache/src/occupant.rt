//! Who had a slot before a key got it.

/// Who had the slot of a key until [`Cache::put_slot`](crate::Cache::put_slot) was called.
///
/// # Example
///
/// ```
/// let (slot, occupant) = cache.put_slot(number, ());
/// if let Occupant::Other(evicted) = occupant {
///     write(evicted, &frames[slot]);
/// }
/// if occupant != Occupant::Itself {
///     frames[slot] = read(number);
/// }
/// ```
#[derive(Clone, Copy, Debug, PartialEq)]
pub enum Occupant<K> {
    /// The key itself, which was hit.
    Itself,
    /// No key, since the slot was free.
    Nobody,
    /// This key, which was evicted.
    Other(K),
}
