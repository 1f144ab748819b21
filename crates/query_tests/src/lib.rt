//! Tests of what asks node files: the checker, lists, rays, pictures, kept blocks. Each call is tested
//! from outside, as the crates above call it, so that no crate is proved a second time for its tests.
#![tactic(auto)]

#[cfg(test)]
mod block_cache_tests;
#[cfg(test)]
mod cell_lists_tests;
#[cfg(test)]
mod made_cells;
#[cfg(test)]
mod node_check_store_tests;
#[cfg(test)]
mod node_check_tests;
#[cfg(test)]
mod ray_answers_tests;
#[cfg(test)]
mod ray_fraction_tests;
#[cfg(test)]
mod ray_walk_tests;
#[cfg(test)]
mod slice_view_tests;
#[cfg(test)]
mod slice_view_view_tests;
