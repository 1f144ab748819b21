//! The generator of the heights.

ghost use Rattle.std.specs.Prelude.{◌≡◌};
ghost use Rattle.mesh_maker.specs.MadeText.{next_number};

/// The generator's factor and summand: the linear congruential generator of Knuth's MMIX, modulo 2^64.
const FACTOR: u64 = 6364136223846793005;

const SUMMAND: u64 = 1442695040888963407;

/// The number after another.
pub fn next_number(number: u64) -> u64
    ensures { result ≡ next_number number }
{
    FACTOR.wrapping_mul(number).wrapping_add(SUMMAND)
}
