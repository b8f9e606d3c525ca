//! A part of all keys, chosen by their hashes: a cache as much smaller hits about as often on it.
ghost use Rattle.std.specs.List.{fold};
ghost use Rattle.std.specs.Option.{option_map};
ghost use Rattle.std.specs.Prelude.{◌≡◌, ◌<◌, ◌≤◌, ◌^◌, IfOk, IfSome, Some, map};
ghost use Rattle.simulator_interface.specs.Amounts.{amount};
ghost use Rattle.simulator_interface.specs.declared.amount.Unit.TheVariants.{Millionths};
ghost use Rattle.simulator_interface.specs.Sample.{after_byte, is_in_sample, part_in, rate_in, sample_in, sampling_hash, scaled, scaled_share, scaled_shares, shown, six_decimals_in, stirred, unscaled};

use crate::amount::{Amount, Unit, millionths_of, number_of};
use crate::capacities::MAX_CAPACITY;
use crate::shares::ChosenShares;
use std::alloc::{AllocError, Allocator};

/// An odd number whose bits have no pattern: 2^64 divided by the golden ratio.
const FACTOR: u64 = 11400714819323198485;

/// A part of all keys. Whether a key is in it depends on the key alone, so either all accesses of a
/// key are sampled, or none.
///
/// # Example
///
/// ```
/// let sample = Sample::written("0.01").ok_or("no sample")?;
/// assert_eq!(rt; sample.millionths, 10_000);
/// ```
#[derive(Clone, Copy, Debug, PartialEq, Eq)]
pub struct Sample {
    /// How many keys of a million are in it, about.
    pub millionths: usize,
}

impl Sample {
    /// Returns the sample that a word spells: a part of one with at most six decimals, as `0.01`, or
    /// a percentage, as `1%`.
    pub fn written(word: &str) -> Option<Sample>
        ensures sample { result ≡ sample_in word.now }
        ensures some { IfSome result (λ sample. 0 < sample.millionths) }
        ensures within { IfSome result (λ sample. sample.millionths ≤ 1000000) }
    {
        let millionths = rate_of(word)?;
        if 0 < millionths && millionths <= 1_000_000 {
            return Some(Sample { millionths });
        }
        None
    }

    /// Returns true if a key is in the sample.
    pub fn has(self, key: &[u8]) -> bool
        ensures has { result ≡ is_in_sample self key.now }
    {
        let part = sampling_hash(key) / 4_294_967_296 * 1_000_000 / 4_294_967_296;
        (part as usize) < self.millionths
    }

    /// Returns the capacity for the sample's keys that a capacity for all keys becomes.
    fn scaled(self, capacity: Amount) -> Amount
        ensures scaled { result ≡ scaled (Some self) capacity }
    {
        match capacity.unit {
            Unit::Keys => Amount {
                number: self.part().of(capacity.number.min(MAX_CAPACITY)),
                unit: Unit::Keys,
            },
            Unit::Millionths => capacity,
        }
    }

    /// Returns the capacity for all keys that becomes a capacity for the sample's keys.
    fn unscaled(self, capacity: usize) -> usize
        ensures unscaled { result ≡ unscaled (Some self) capacity }
    {
        capacity.saturating_mul(1_000_000) / self.millionths.max(1)
    }

    /// Returns the sample's part of all keys.
    pub(crate) fn part(self) -> Amount
        ensures part { result ≡ amount Millionths self.millionths }
    {
        Amount {
            number: self.millionths,
            unit: Unit::Millionths,
        }
    }
}

/// Returns the capacities that capacities for all keys become, in order.
pub fn all_scaled<A: Allocator>(
    alloc: A,
    sample: Option<Sample>,
    capacities: &[Amount],
) -> Result<Vec<Amount, A>, AllocError>
    ensures scaled { IfOk result (λ all. all.items ≡ map (scaled sample) capacities.now) }
{
    let mut all = Vec::new(alloc);
    for capacity in capacities {
        all.push(scaled(sample, *capacity))?;
    }
    Ok(all)
}

/// Returns the capacity for all keys that becomes a capacity for a sample's keys, or for all.
pub(crate) fn unscaled(sample: Option<Sample>, capacity: usize) -> usize
    ensures unscaled { result ≡ unscaled sample capacity }
{
    match sample {
        Some(sample) => sample.unscaled(capacity),
        None => capacity,
    }
}

/// Returns the capacities that the rows of capacities for all keys show, in order, if a trace has this
/// many different keys.
pub fn all_shown<A: Allocator>(
    alloc: A,
    sample: Option<Sample>,
    keys: usize,
    capacities: &[Amount],
) -> Result<Vec<usize, A>, AllocError>
    requires few { keys ≤ 2 ^ 32 }
    ensures shown { IfOk result (λ all. all.items ≡ map (shown sample keys) capacities.now) }
{
    let mut all = Vec::new(alloc);
    for capacity in capacities {
        all.push(shown(sample, keys, *capacity))?;
    }
    Ok(all)
}

/// Returns the capacity that the row of a capacity for all keys shows.
fn shown(sample: Option<Sample>, keys: usize, capacity: Amount) -> usize
    requires few { keys ≤ 2 ^ 32 }
    ensures shown { result ≡ shown sample keys capacity }
{
    match capacity.unit {
        Unit::Keys => capacity.number,
        Unit::Millionths => unscaled(sample, capacity.of(keys)),
    }
}

/// Returns the shares that shares of caches for all keys become.
pub fn scaled_shares(sample: Option<Sample>, shares: Option<ChosenShares>) -> Option<ChosenShares>
    ensures scaled { result ≡ scaled_shares sample shares }
{
    match shares {
        Some(shares) => Some(ChosenShares {
            small: scaled_share(sample, shares.small),
            window: scaled_share(sample, shares.window),
            history: scaled_history(sample, shares.history),
        }),
        None => None,
    }
}

/// Returns the history's share that one of a cache for all keys becomes, if there is one.
fn scaled_history(sample: Option<Sample>, history: Option<Amount>) -> Option<Amount>
    ensures scaled { result ≡ option_map (scaled_share sample) history }
{
    match history {
        Some(history) => Some(scaled_share(sample, history)),
        None => None,
    }
}

/// Returns the share that a share of a cache for all keys becomes.
fn scaled_share(sample: Option<Sample>, share: Amount) -> Amount
    ensures scaled { result ≡ scaled_share sample share }
{
    if share.number == 0 {
        return share;
    }
    scaled(sample, share)
}

/// Returns the capacity that a capacity for all keys becomes.
pub fn scaled(sample: Option<Sample>, capacity: Amount) -> Amount
    ensures scaled { result ≡ scaled sample capacity }
{
    match sample {
        Some(sample) => sample.scaled(capacity),
        None => capacity,
    }
}

/// Returns the hash of a key.
fn sampling_hash(key: &[u8]) -> u64
    ensures hash { result ≡ sampling_hash key.now }
{
    stirred(stirred(bytes_hash(key)))
}

/// Returns the hash of a key before it is stirred.
fn bytes_hash(key: &[u8]) -> u64
    ensures hash { result ≡ fold after_byte 1 key.now }
{
    let mut hash = 1u64;
    for byte in key {
        hash = hash.wrapping_add(u64::from(*byte)).wrapping_mul(FACTOR);
    }
    hash
}

/// Adds the upper half of a hash to it, and multiplies the sum.
fn stirred(hash: u64) -> u64
    ensures stirred { result ≡ stirred hash }
{
    hash.wrapping_add(hash / 4_294_967_296).wrapping_mul(FACTOR)
}

/// Returns the millionths of the keys that a word asks for.
fn rate_of(word: &str) -> Option<usize>
    ensures rate { result ≡ rate_in word.now }
{
    match word.strip_suffix('%') {
        Some(percentage) => millionths_of(percentage),
        None => part_of(word.as_bytes()),
    }
}

/// Returns a part of one in millionths.
fn part_of(word: &[u8]) -> Option<usize>
    ensures part { result ≡ part_in word.now }
{
    if 1 < word.len() && word[0] == b'0' && word[1] == b'.' {
        return six_decimals_of(&word[2..]);
    }
    None
}

/// Returns the decimals of a part of one in millionths, if there are one to six.
fn six_decimals_of(decimals: &[u8]) -> Option<usize>
    ensures decimals { result ≡ six_decimals_in decimals.now }
{
    let worth = match decimals.len() {
        1 => 100_000,
        2 => 10_000,
        3 => 1_000,
        4 => 100,
        5 => 10,
        6 => 1,
        _ => return None,
    };
    Some(number_of(decimals)?.saturating_mul(worth))
}
