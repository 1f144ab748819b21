//! Tests of devices in memory, lines, tokens, numbers and meshes of a text. Each call is tested
//! from outside, as the crates above call it, so that no crate is proved a second time for its tests.
#![tactic(auto)]

#[cfg(test)]
mod dev_traits_tests;
#[cfg(test)]
mod mesh_maker_tests;
#[cfg(test)]
mod ply_binary_tests;
#[cfg(test)]
mod ply_reader_tests;
#[cfg(test)]
mod ply_text_number_tests;
#[cfg(test)]
mod ply_text_token_callers;
#[cfg(test)]
mod ply_text_token_tests;
