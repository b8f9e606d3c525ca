//! The policies that can be compared.
ghost use Rattle.std.specs.Prelude.{◌≡◌};
ghost use Rattle.simulator_interface.specs.PolicyNames.{has_bytes, name_of, policy_named};

/// Which key a cache evicts.
///
/// # Example
///
/// ```
/// assert_eq!(rt; Policy::named("lru"), Some(Policy::LeastRecentlyUsed));
/// assert_eq!(rt; Policy::LeastRecentlyUsed.heading(), "LRU");
/// ```
#[derive(Clone, Copy, Debug, PartialEq, Eq)]
pub enum Policy {
    /// Clock2Q+ with its usual shares.
    Clock2Q,
    /// SIEVE (2024).
    Sieve,
    /// S3-FIFO (2023).
    S3Fifo,
    /// LRU: evicts the least recently used key.
    LeastRecentlyUsed,
    /// The most hits of any policy that admits each key that it misses (1966).
    Optimal,
    /// FIFO: evicts the key that was admitted first.
    FirstInFirstOut,
    /// CLOCK (1968).
    Clock,
    /// ARC (2003).
    Arc,
    /// 2Q (1994), the full version.
    TwoQ,
    /// LIRS (2002).
    Lirs,
    /// LRU-2 (1993).
    Lru2,
    /// W-TinyLFU (2017).
    WTinyLfu,
}

impl Policy {
    /// All policies.
    pub const ALL: [Policy; 12] = [
        Policy::Clock2Q,
        Policy::Sieve,
        Policy::S3Fifo,
        Policy::LeastRecentlyUsed,
        Policy::Optimal,
        Policy::FirstInFirstOut,
        Policy::Clock,
        Policy::Arc,
        Policy::TwoQ,
        Policy::Lirs,
        Policy::Lru2,
        Policy::WTinyLfu,
    ];

    /// The policies that are shown if none is chosen.
    pub const SHOWN: [Policy; 5] = [
        Policy::Clock2Q,
        Policy::Sieve,
        Policy::S3Fifo,
        Policy::LeastRecentlyUsed,
        Policy::Optimal,
    ];

    /// Returns the policy that an argument names, such as `lru`.
    pub fn named(name: &str) -> Option<Policy>
        ensures named { result ≡ policy_named name.now }
    {
        match name {
            "clock2q" => Some(Policy::Clock2Q),
            "sieve" => Some(Policy::Sieve),
            "s3fifo" => Some(Policy::S3Fifo),
            "lru" => Some(Policy::LeastRecentlyUsed),
            "opt" => Some(Policy::Optimal),
            "fifo" => Some(Policy::FirstInFirstOut),
            "clock" => Some(Policy::Clock),
            "arc" => Some(Policy::Arc),
            "2q" => Some(Policy::TwoQ),
            "lirs" => Some(Policy::Lirs),
            "lru2" => Some(Policy::Lru2),
            "wtinylfu" => Some(Policy::WTinyLfu),
            _ => None,
        }
    }

    /// Returns the name by which an argument chooses the policy.
    pub fn name(self) -> &'static str
        ensures name { result.now ≡ name_of self }
    {
        match self {
            Policy::Clock2Q => "clock2q",
            Policy::Sieve => "sieve",
            Policy::S3Fifo => "s3fifo",
            Policy::LeastRecentlyUsed => "lru",
            Policy::Optimal => "opt",
            Policy::FirstInFirstOut => "fifo",
            Policy::Clock => "clock",
            Policy::Arc => "arc",
            Policy::TwoQ => "2q",
            Policy::Lirs => "lirs",
            Policy::Lru2 => "lru2",
            Policy::WTinyLfu => "wtinylfu",
        }
    }

    /// Returns true if the policy is defined for a cache for a number of bytes.
    pub fn has_bytes(self) -> bool
        ensures defined { result ≡ has_bytes self }
    {
        match self {
            Policy::Clock2Q | Policy::Sieve | Policy::S3Fifo => true,
            Policy::LeastRecentlyUsed | Policy::FirstInFirstOut | Policy::Clock => true,
            _ => false,
        }
    }

    /// Returns the name by which tables and pictures show the policy.
    pub fn heading(self) -> &'static str {
        match self {
            Policy::Clock2Q => "Clock2Q+",
            Policy::Sieve => "SIEVE",
            Policy::S3Fifo => "S3-FIFO",
            Policy::LeastRecentlyUsed => "LRU",
            Policy::Optimal => "OPT",
            Policy::FirstInFirstOut => "FIFO",
            Policy::Clock => "CLOCK",
            Policy::Arc => "ARC",
            Policy::TwoQ => "2Q",
            Policy::Lirs => "LIRS",
            Policy::Lru2 => "LRU-2",
            Policy::WTinyLfu => "WTinyLFU",
        }
    }
}
