//! Where lookups that find nothing end.
use crate::metadata::Wanted;
use std::marker::Model;

/// The slot of a table where a lookup that found nothing ended, and where an entry of its hash
/// would be inserted. [`Table::search`](crate::Table::search) and
/// [`Candidates::peek_or_gap`](crate::Candidates::peek_or_gap) return it.
///
/// A gap stays valid until an entry is inserted or removed, or the table grows.
#[derive(Drop)]
pub struct Gap {
    pub(super) slot: usize,

    /// What the lookup looked for in the slot.
    pub(super) wanted: Wanted,
}

impl Model for Gap {
    ghost use Rattle.clock2q_handles.specs.Positions.{GapValue, gap_value, gap_code};
    ghost use Rattle.clock2q_handles.specs.Slots.{sought};

    ghost Value = { GapValue };

    ghost coded = { gap_code };

    ghost view = { λ g. gap_value g.slot (sought g.wanted) };
}
