//! An entry of a table.

/// A handle with the hash that it was or will be inserted under.
///
/// # Example
///
/// ```
/// let mut table: Table<usize> = Table::with_capacity(rt.alloc(), 12)?;
/// table.insert(7, 70, |_| 7)?;
/// let old = Entry { hash: 7, handle: 70 };
/// table.replace(None, Entry { hash: 9, handle: 90 }, old);
/// assert_eq!(rt; table.get(9).next(), Some(90));
/// ```
#[derive(Clone, Copy)]
pub struct Entry<H> {
    /// The hash.
    pub hash: u64,
    /// The handle.
    pub handle: H,
}
