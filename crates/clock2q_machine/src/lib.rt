//! The machine that defines what a cache does: definitions, and what is proved about them alone.
//!
//! This crate has no code. The contracts of `clock2q_cache` say that each call of a `Cache` has the
//! result and the effect of a step of this machine, and here is all that there is to read about it:
//!
//! - A machine is three lists and a stack: Small, newest first; Main, from the hand; the history,
//!   newest first; and the free slots. Beside them are its shares and a value for each slot that
//!   was made (`specs/Machine`, `specs/Entries`, `specs/Shares`).
//! - An entry of Small is young for the first admissions to Small after its own, as many as the
//!   window is long, and old from then on; only an old one remembers that it was hit
//!   (`specs/Ages`).
//! - The hand moves the hit entries at the front of Main's list behind the rest, with clear bits;
//!   the first entry is then the victim (`specs/Hand`).
//! - A call and its answer are data (`specs/Calls`); a step defines the answer and the effect of a
//!   call (`specs/Steps`), and its cost is in `specs/Bounds`.
//! - Keys are compared by any test; the machine uses no hash.
//!
//! `specs/Whole` is the invariant of every machine that the calls lead to, `specs/Policies` says
//! which shares fit together. `proofs/` proves that it is an invariant (`MachineInvariant`), what a
//! caller relies on (`Laws`), the bound on the hand's inspections (`Clock`, `Linear`), which key
//! leaves (`SecondChance`, `Remembered`, `Victims`), which keys a scan evicts (`Scanned`), how long
//! a key stays (`Lifetimes`), that without Small it is CLOCK (`WithoutSmall`), that it hits no more
//! than Belady's optimum (`MachineOptimum`), and runs worked out by hand (`WorkedRuns` and its
//! neighbours).
#![tactic(auto)]
