//! The nodes over a cell.

ghost use Rattle.std.specs.Prelude.{◌≡◌, ◌≢◌, ◌+◌, ◌*◌, ◌/◌, ◌^◌, ◌<◌, ◌≤◌};
ghost use Rattle.svo_base.specs.declared.grids.TheConstants.{MAX_DEPTH};

/// The code of the node that a cell lies under, so many levels higher.
pub fn ancestor(code: u64, height: u32) -> u64
    requires { height ≤ 20 }
    ensures { result ≡ code / 8 ^ height }
{
    code >> (3 * height)
}

/// The least height from which on two cells of an octree of this depth lie under different children of
/// one node, or 0 where they are one cell: all nodes over the first cell below that height are complete
/// when the second cell comes behind it.
pub fn turning_height(last: u64, code: u64, depth: u32) -> u32
    requires depth { 0 < depth }
    requires shallow { depth ≤ MAX_DEPTH }
    requires last { last < 8 ^ depth }
    requires code { code < 8 ^ depth }
    ensures within { result < depth }
    ensures same { code / 8 ^ (result + 1) ≡ last / 8 ^ (result + 1) }
    ensures apart { 0 < result → code / 8 ^ result ≢ last / 8 ^ result }
{
    let mut height = 0;
    while ancestor(code, height + 1) != ancestor(last, height + 1) {
        height += 1;
    }
    height
}
