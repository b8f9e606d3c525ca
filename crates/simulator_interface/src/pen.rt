//! How a picture draws each policy.

use crate::policy::Policy;
use simulator_charts::Pen;

/// Returns the pen of a policy. People with colour blindness can distinguish the colours, and each
/// policy has points of its own shape. Those of Clock2Q+ are filled.
pub(crate) fn pen_of(policy: Policy) -> Pen {
    let (colour, dashes, shape) = match policy {
        Policy::Clock2Q => ("#0072b2", "none", DISC),
        Policy::Sieve => ("#d55e00", "9 3", "m -5 -5 h 10 v 10 h -10 z"),
        Policy::S3Fifo => ("#009e73", "2 3", "m 0 -7 l 6 11 h -12 z"),
        Policy::LeastRecentlyUsed => ("#cc79a7", "14 4 2 4", "m 0 -7 l 7 7 l -7 7 l -7 -7 z"),
        Policy::Optimal => ("#000000", "5 5", "m -4 -4 l 8 8 m 0 -8 l -8 8"),
        Policy::FirstInFirstOut => ("#e69f00", "4 2", "m 0 7 l 6 -11 h -12 z"),
        Policy::Clock => ("#56b4e9", "9 3 2 3", CIRCLE),
        Policy::Arc => ("#7a5c00", "14 4", "m -6 0 h 12 m -6 -6 v 12"),
        Policy::TwoQ => ("#882255", "6 3", "m -7 0 l 11 -6 v 12 z"),
        Policy::Lirs => ("#332288", "12 3 2 3", "m 7 0 l -11 -6 v 12 z"),
        Policy::Lru2 => ("#999933", "3 3", "m -4 -6 h 8 l 4 6 l -4 6 h -8 l -4 -6 z"),
        Policy::WTinyLfu => ("#117733", "8 2 2 2", "m -3 -7 h 6 v 14 h -6 z"),
    };
    Pen {
        colour,
        dashes,
        shape,
        is_filled: matches!(policy, Policy::Clock2Q),
    }
}

const DISC: &str = "m -3.5 0 a 3.5 3.5 0 1 0 7 0 a 3.5 3.5 0 1 0 -7 0 z";

const CIRCLE: &str = "m -6 0 a 6 6 0 1 0 12 0 a 6 6 0 1 0 -12 0 z";
