//! The definitions that the crates above cite in their contracts, in `specs/`, and laws about them,
//! in `proofs/`. It has no code.
#![tactic(auto)]
