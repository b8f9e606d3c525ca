//! The shares of Clock2Q+ in a cache for a number of bytes.
ghost use Rattle.std.specs.Prelude.{IfErr};
ghost use Rattle.simulator_interface.specs.SimulationError.{IsOfNoDevice};

use simulator_interface::{Amount, ChosenShares, SimulationError, Unit};
use simulator_policies::tested::ByteShares;

/// Returns the chosen shares of a capacity in bytes, or the usual ones.
///
/// # Errors
///
/// `Shares` if they don't fit together in a cache of the capacity.
pub(crate) fn byte_shares_of(
    shares: Option<ChosenShares>,
    capacity: usize,
) -> Result<ByteShares, SimulationError>
    ensures devices { IfErr result IsOfNoDevice }
{
    let Some(shares) = shares else {
        return Ok(ByteShares::usual(capacity));
    };
    let small = part_of(shares.small, capacity);
    let history = shares
        .history
        .map_or(capacity / 2, |history| part_of(history, capacity));
    let window = part_of(shares.window, small);
    if small >= capacity || (small == 0) != (window == 0) {
        return Err(SimulationError::Shares(capacity));
    }
    Ok(ByteShares {
        small,
        window,
        history,
    })
}

/// Returns a share of a number of bytes: a percentage is rounded down, but is at least one byte.
fn part_of(share: Amount, bytes: usize) -> usize {
    match share.unit {
        Unit::Keys => share.number,
        Unit::Millionths => {
            let millionths = share.number.min(1_000_000);
            let rest = (bytes % 1_000_000).saturating_mul(millionths) / 1_000_000;
            let millions = (bytes / 1_000_000).saturating_mul(millionths);
            millions.saturating_add(rest).max(1)
        }
    }
}
