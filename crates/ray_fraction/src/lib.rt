//! Rays, and the times at which they pass, as exact fractions.
#![tactic(auto)]

mod divisors;
mod fractions;
mod laws;
mod passing;
mod rays;
mod slabs;
mod spans;
mod times;

pub use laws::{
    entries_bound_times, least_time_is_an_entry, times_are_ordered, times_grow_with_cubes,
    times_have_no_gaps,
};
pub use passing::{entry, exit};
pub use rays::{Ray, RayFault};
pub use times::{Time, compare};
