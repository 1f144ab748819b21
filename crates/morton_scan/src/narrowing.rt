//! The smallest node that holds the cells that a triangle's box reaches.

ghost use Rattle.std.specs.Prelude.{◌≡◌, ◌≢◌, ℕ, ◌<◌, false, IfSome};
ghost use Rattle.svo_base.specs.declared.shapes.Triangle.{Triangle as TriangleShape};
ghost use Rattle.morton_scan.specs.Narrowing.{IsChildUnmet, IsNarrowed, IsSmallest, reached_of};
ghost use Rattle.morton_scan.specs.Nodes.{IsNode};
ghost use Rattle.morton_scan.specs.Reaching.{has_octant};
ghost use Rattle.svo_base.specs.Boxes.{bounds_of};
ghost use Rattle.std.specs.Option.{IfNone};

use crate::nodes::Node;
use crate::octants::Octants;
use svo_base::{Bounds, Grid};

/// The smallest node under this one that holds all cells under it that the box reaches. On the way
/// there the box reaches one child alone of each node, so that none of them needs a test.
pub fn narrowed(grid: &Grid, whole: &Node, bounds: &Bounds) -> Node
    requires { IsNode grid.now whole.now }
    ensures node { IsNode grid.now result }
    ensures narrow { (t : TriangleShape) → bounds.now ≡ bounds_of t → IsNarrowed grid.now t whole.now result }
    ensures smallest { IsSmallest grid.now bounds.now result }
{
    let mut node = *whole;
    while let Some(octant) = only_octant(grid, &node, bounds) {
        node = node.child(grid, octant);
    }
    node
}

/// The place of the child of a node that alone may be met, or `None` where the node has no children,
/// or the box reaches none of them or more than one.
fn only_octant(grid: &Grid, node: &Node, bounds: &Bounds) -> Option<u64>
    requires { IsNode grid.now node.now }
    ensures above { IfSome result (λ _. 0 < node.now.height) }
    ensures octant { IfSome result (λ octant. octant < 8) }
    ensures only { IfSome result (λ octant. (t : TriangleShape) → bounds.now ≡ bounds_of t → (other : ℕ) → other < 8 → other ≢ octant → IsChildUnmet grid.now t node.now other) }
    ensures smallest { IfNone result (IsSmallest grid.now bounds.now node.now) }
{
    if node.height == 0 {
        return None;
    }
    reached_octants(grid, node, bounds).only()
}

/// The children of a node that may be met, which are those that the box reaches where it reaches the
/// node.
pub fn reached_octants(grid: &Grid, node: &Node, bounds: &Bounds) -> Octants
    requires node { IsNode grid.now node.now }
    requires above { 0 < node.now.height }
    ensures unmet { (t : TriangleShape) → bounds.now ≡ bounds_of t → (octant : ℕ) → octant < 8 → has_octant result octant ≡ false → IsChildUnmet grid.now t node.now octant }
    ensures halves { result ≡ reached_of grid.now bounds.now node.now }
{
    Octants::new(bounds, &node.child(grid, 7).cube)
}
