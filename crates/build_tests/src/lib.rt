//! Tests of what builds: overlap, buffers, streams on scratch, slots, queues, the node file. Each call is tested
//! from outside, as the crates above call it, so that no crate is proved a second time for its tests.
#![tactic(auto)]

#[cfg(test)]
mod level_queues_tests;
#[cfg(test)]
mod morton_scan_stream_tests;
#[cfg(test)]
mod morton_scan_tests;
#[cfg(test)]
mod node_file_store_tests;
#[cfg(test)]
mod node_file_tests;
#[cfg(test)]
mod room_plan_tests;
#[cfg(test)]
mod tri_cube_tests;
#[cfg(test)]
mod tri_partition_spill_tests;
#[cfg(test)]
mod tri_partition_tests;
#[cfg(test)]
mod vertex_spool_tests;
