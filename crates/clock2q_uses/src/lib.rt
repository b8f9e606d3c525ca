//! Short callers of `clock2q`, each modelled on real code, with what its users rely on proved.
#![tactic(auto)]

pub mod checksums;
pub mod expiring;
pub mod hashers;
pub mod interning;
pub mod pages;
pub mod records;
pub mod replay;
pub mod routes;
pub mod scans;
pub mod split;
pub mod squares;
pub mod write_back;
