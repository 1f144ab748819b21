//! The first filled cube that a ray enters, found by a walk down the octree of a node file (Revelles,
//! Ureña, Lastra 2000; Laine, Karras 2010): children are visited in the order in which the ray passes
//! them, and entered only where the best hit so far is not sooner.
#![tactic(auto)]

mod casting;
mod flights;
mod hits;
mod lanes;
mod spots;
mod walking;

pub use casting::cast;
pub use hits::Hit;
pub use walking::read_word;
