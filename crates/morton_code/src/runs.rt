//! Runs of codes that are all the cells under one node.

ghost use Rattle.std.specs.Prelude.{◌≡◌, ℕ, ◌*◌, ◌%◌, ◌^◌, ◌<◌, ◌≤◌};
ghost use Rattle.morton_code.specs.Runs.{IsGreatestRun};

/// The run of the codes of all cells under a node, named by the node's level and code.
#[derive(Clone, Copy, Debug, PartialEq, Eq)]
pub struct Run {
    /// How many levels the node is below the root.
    pub level: u32,
    /// The node's Morton code, of as many octal digits as its level.
    pub code: u64,
}

/// The greatest run that begins at `from` and ends not after `to`, of an octree of this depth.
pub fn aligned_run(from: u64, to: u64, depth: u32) -> Run
    requires some { from < to }
    requires inside { to ≤ 8 ^ depth }
    requires depth { depth ≤ 20 }
    ensures { IsGreatestRun from to depth result }
{
    let height = alignment(from).min(log_8(to - from));
    Run {
        level: depth - height,
        code: from >> (3 * height),
    }
}

/// The greatest height of a node whose cells begin at this code; of 0 a height above each octree.
fn alignment(code: u64) -> u32
    ensures within { result ≤ 21 }
    ensures divides { (height : ℕ) → height ≤ result → code % 8 ^ height ≡ 0 }
    ensures greatest { (height : ℕ) → height ≤ 20 → code % 8 ^ height ≡ 0 → height ≤ result }
{
    code.trailing_zeros() / 3
}

/// The logarithm of a number to the base 8, rounded down.
fn log_8(number: u64) -> u32
    requires { 0 < number }
    ensures power { 8 ^ result ≤ number }
    ensures greatest { number < 8 * 8 ^ result }
{
    number.ilog2() / 3
}
