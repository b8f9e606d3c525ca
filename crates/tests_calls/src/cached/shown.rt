//! What is written of all residents.

use crate::cached::Cached;
use crate::verb::Shown;
use std::alloc::AllocError;
use std::hash::BuildHasher;

impl<'a, S: BuildHasher> Cached<'a, S> {
    /// Writes it, with a line end.
    pub(super) fn write_shown(&self, shown: Shown, replies: &mut String) -> Result<(), AllocError> {
        match shown {
            Shown::Residents => self.write_residents(replies)?,
            Shown::Keys => self.write_keys(replies)?,
            Shown::Debug => write!(replies, "{:?}", self.cache)?,
        }
        replies.push_str("\n")
    }

    /// Writes the key, the slot and the value of each resident.
    fn write_residents(&self, replies: &mut String) -> Result<(), AllocError> {
        for (key, slot, value) in &self.cache {
            write!(replies, "{}:{slot}:{value} ", key.id)?;
        }
        Ok(())
    }

    /// Writes the id and the tag of each resident's key.
    fn write_keys(&self, replies: &mut String) -> Result<(), AllocError> {
        for key in self.cache.keys() {
            write!(replies, "{}:{} ", key.id, key.tag)?;
        }
        Ok(())
    }
}
