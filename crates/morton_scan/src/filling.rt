//! One triangle put into the slots of a part.

ghost use Rattle.std.specs.Prelude.{◌≡◌, ℕ, Bool, ◌+◌, ◌-◌, ◌*◌, ◌^◌, ◌<◌, ◌≤◌, length};
ghost use Rattle.bit_grid.specs.Touched.{AreTouched};
ghost use Rattle.octree_specs.specs.Parts.{passing, PassWhereMet};
ghost use Rattle.svo_base.specs.Boxes.{bounds_of};
ghost use Rattle.morton_scan.specs.Nodes.{IsNode, HasSlots};
ghost use Rattle.morton_scan.specs.Putting.{ArePut, MeetsInPart, MetUnder, first_of_part};

use crate::box_filling::fill_few;
use crate::cell_boxes::CellBox;
use crate::narrowing::{narrowed, reached_octants};
use crate::nodes::Node;
use crate::put::Put;
use crate::reaching::bounds_reach;
use bit_grid::{TouchedBlocks, put_touched};
use std::sync::ledger::Ledger;
use svo_base::{Bounds, Grid, Steps, Triangle};
use tri_cube::PreparedTriangle;

/// So many cells for each level below a node are few.
const CELLS_A_LEVEL: u64 = 8;

/// Puts a face into the slots of all cells of a part that its triangle meets; all other slots stay.
/// The part is a node of level `split`, and slot `place` is that of the part's cell with `place`
/// cells of the part before it in Morton order. There are fewer than 2^62 slots. Faces are at most
/// 4,294,967,294. Each overlap test is counted; there is one, and at most eight more for each node
/// above the cells that the triangle meets.
pub fn fill_triangle<L: Ledger>(
    grid: &Grid,
    split: u32,
    part: u32,
    triangle: &Triangle,
    face: u32,
    slots: &mut [u32],
    tests: &mut Steps<L>,
)
    requires split { split ≤ grid.now.depth }
    requires part { part < 8 ^ split }
    requires slots { 8 ^ (grid.now.depth - split) ≤ length slots.old }
    requires face { face + 1 < 2 ^ 32 }
    ensures slots { ArePut (MeetsInPart grid.now split part triangle.now) (first_of_part grid.now split part) face slots.old slots.new }
    ensures tests { (test : ℕ → ℕ → Bool) → PassWhereMet grid.now triangle.now test → tests.new ≤ tests.old + 1 + 8 * passing test (grid.now.depth - split) part }
{
    let mut blocks = TouchedBlocks::all(slots.len());
    fill_touched(grid, split, part, triangle, face, slots, &mut blocks, tests);
}

/// The same, where the blocks of slots that were touched are remembered.
pub fn fill_touched<L: Ledger>(
    grid: &Grid,
    split: u32,
    part: u32,
    triangle: &Triangle,
    face: u32,
    slots: &mut [u32],
    blocks: &mut TouchedBlocks,
    tests: &mut Steps<L>,
)
    requires split { split ≤ grid.now.depth }
    requires part { part < 8 ^ split }
    requires slots { 8 ^ (grid.now.depth - split) ≤ length slots.old }
    requires face { face + 1 < 2 ^ 32 }
    requires touched { AreTouched slots.old blocks.old }
    ensures slots { ArePut (MeetsInPart grid.now split part triangle.now) (first_of_part grid.now split part) face slots.old slots.new }
    ensures touched { AreTouched slots.new blocks.new }
    ensures tests { (test : ℕ → ℕ → Bool) → PassWhereMet grid.now triangle.now test → tests.new ≤ tests.old + 1 + 8 * passing test (grid.now.depth - split) part }
{
    let node = Node::new(grid, split, u64::from(part));
    let bounds = Bounds::of_triangle(triangle);
    if !bounds_reach(&bounds, &node.cube) {
        return;
    }
    let put = Put {
        triangle: PreparedTriangle::new(triangle),
        bounds,
        face,
        first: first_code(grid, split, part),
    };
    fill_under(grid, &node, &put, slots, blocks, tests);
}

/// The code of a part's first cell.
fn first_code(grid: &Grid, split: u32, part: u32) -> u64
    requires split { split ≤ grid.now.depth }
    requires part { part < 8 ^ split }
    ensures { result ≡ first_of_part grid.now split part }
{
    u64::from(part) << (3 * (grid.depth() - split))
}

/// Puts a face into the slots of the cells under a node that its triangle meets: one by one where its
/// box reaches few of them, else by walking down.
fn fill_under<L: Ledger>(
    grid: &Grid,
    node: &Node,
    put: &Put,
    slots: &mut [u32],
    blocks: &mut TouchedBlocks,
    tests: &mut Steps<L>,
)
    requires node { IsNode grid.now node.now }
    requires face { put.now.face + 1 < 2 ^ 32 }
    requires bounds { put.now.bounds ≡ bounds_of put.now.triangle }
    requires slots { HasSlots put.now.first (length slots.old) node.now.height node.now.code }
    requires touched { AreTouched slots.old blocks.old }
    ensures slots { ArePut (MetUnder grid.now put.now.triangle node.now.height node.now.code (node.now.code + 1)) put.now.first put.now.face slots.old slots.new }
    ensures touched { AreTouched slots.new blocks.new }
    ensures tests { (test : ℕ → ℕ → Bool) → PassWhereMet grid.now put.now.triangle test → tests.new ≤ tests.old + 1 + 8 * passing test node.now.height node.now.code }
{
    let cells = CellBox::new(grid, node, &put.bounds);
    if cells.count() > CELLS_A_LEVEL * u64::from(node.height) {
        fill_node(grid, node, put, slots, blocks, tests);
        return;
    }
    fill_few(grid, node, &cells, put, slots, blocks, tests);
}

/// Puts a face into the slots of the cells under a node that its triangle meets. The smallest node
/// that holds those that the triangle's box reaches is asked, and then its children, of which only
/// those that the box reaches.
fn fill_node<L: Ledger>(
    grid: &Grid,
    whole: &Node,
    put: &Put,
    slots: &mut [u32],
    blocks: &mut TouchedBlocks,
    tests: &mut Steps<L>,
)
    requires node { IsNode grid.now whole.now }
    requires face { put.now.face + 1 < 2 ^ 32 }
    requires bounds { put.now.bounds ≡ bounds_of put.now.triangle }
    requires slots { HasSlots put.now.first (length slots.old) whole.now.height whole.now.code }
    requires touched { AreTouched slots.old blocks.old }
    ensures slots { ArePut (MetUnder grid.now put.now.triangle whole.now.height whole.now.code (whole.now.code + 1)) put.now.first put.now.face slots.old slots.new }
    ensures touched { AreTouched slots.new blocks.new }
    ensures tests { (test : ℕ → ℕ → Bool) → PassWhereMet grid.now put.now.triangle test → tests.new ≤ tests.old + 1 + 8 * passing test whole.now.height whole.now.code }
{
    let node = narrowed(grid, whole, &put.bounds);
    if !put.triangle.overlaps(&node.cube, tests) {
        return;
    }
    if node.height == 0 {
        put_touched(slots, blocks, node.code - put.first, put.face);
        return;
    }
    let octants = reached_octants(grid, &node, &put.bounds);
    for octant in 0..8 {
        if octants.has(octant) {
            fill_node(grid, &node.child(grid, octant), put, slots, blocks, tests);
        }
    }
}
