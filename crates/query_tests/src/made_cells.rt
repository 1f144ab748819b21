//! Cells that are made from a number, and the words of their nodes.

ghost use Rattle.std.specs.Prelude.{◌<◌, ◌≤◌};

use std::alloc::{AllocError, Global};

/// The next of some numbers, of which each is made from the one before.
pub fn next_number(seed: &mut u64) -> u64 {
    *seed = seed
        .wrapping_mul(6_364_136_223_846_793_005)
        .wrapping_add(1_442_695_040_888_963_407);
    *seed >> 33
}

/// Some cells of a depth in ascending order, one in so many.
pub fn some_cells(
    alloc: Global,
    depth: u32,
    one_in: u64,
    seed: &mut u64,
) -> Result<Vec<u64>, AllocError>
    requires depth { depth ≤ 12 }
    requires some { 0 < one_in }
{
    let mut codes = Vec::new(alloc);
    for code in 0..1u64 << (3 * depth) {
        if next_number(seed) % one_in == 0 {
            codes.push(code)?;
        }
    }
    Ok(codes)
}

/// The word of a node in format 2, once the words below it are added behind those so far.
pub fn put_words(
    alloc: Global,
    words: &mut Vec<u64>,
    codes: &[u64],
    height: u32,
    node: u64,
) -> Result<u64, AllocError>
    requires { height ≤ 12 }
{
    if height == 0 {
        return Ok(1);
    }
    let mut mask = 0;
    let mut children = Vec::new(alloc);
    for octant in 0..8 {
        let child = node.wrapping_mul(8).wrapping_add(octant);
        if codes
            .iter()
            .any(|code| *code >> (3 * (height - 1)) == child)
        {
            children.push(put_words(alloc, words, codes, height - 1, child)?)?;
            mask |= 1 << octant;
        }
    }
    let base = words.len() as u64;
    words.extend_from_slice(children.as_slice())?;
    Ok(base.wrapping_mul(256) | mask)
}
