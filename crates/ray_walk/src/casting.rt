//! Casting a ray.

ghost use Rattle.std.specs.Prelude.{◌≡◌, ◌<◌, ◌≤◌, ◌^◌, List, IfOk, IfSome, MatchOption, None, Some};
ghost use Rattle.std.specs.Result.{IfErr};
ghost use Rattle.svo_base.specs.GridShape.{IsGrid};
ghost use Rattle.octree_specs.specs.Cells.{Cell};
ghost use Rattle.ray_fraction.specs.Crossings.{AreFew};
ghost use Rattle.ray_fraction.specs.InCube.{InAt};
ghost use Rattle.octree_specs.specs.NodeCube.{node_cube};
ghost use Rattle.ray_walk.specs.Answers.{IsFirst, TellsCells};
ghost use Rattle.ray_walk.specs.Faults.{IsCaused};
ghost use Rattle.ray_walk.specs.Hitting.{IsTimed};

use crate::flights::Flight;
use crate::hits::{Candidate, Hit};
use crate::spots::Spot;
use crate::walking::walk;
use morton_code::cube_of;
use node_check::WalkFault;
use node_file::Records;
use ray_fraction::{Ray, entry};
use std::sync::ledger::Ledger;
use svo_base::{Grid, Steps};

/// The first filled cell that the ray hits: the least time at which it is in some filled cell's
/// closed cube, and the least code of those whose cube holds it then; or `None` where it is in none.
/// That is said of the words of a node file, in either format; on any others a code is below 8 to the
/// depth. It reads no more words than there are nodes that the ray crosses, and where it runs in no
/// plane between cells, no more than there are nodes that it enters until its hit. `Failed` comes
/// only where a fault was counted, and `Refused` where a word places a child at its own number or
/// behind, which no node file's word does.
pub fn cast<R: Records, L: Ledger>(
    nodes: &mut R,
    ray: &Ray,
    reads: &mut Steps<L>,
) -> Result<Option<Hit>, WalkFault>
    ensures hit { (cells : List Cell) → TellsCells (R.file nodes.old) cells → IfOk result (IsFirst ray.now (R.file nodes.old).grid cells) }
    ensures reads { (cells : List Cell) → TellsCells (R.file nodes.old) cells → AreFew ray.now (R.file nodes.old).grid cells reads.old reads.new }
    ensures looked { (cells : List Cell) → TellsCells (R.file nodes.old) cells → AreFew ray.now (R.file nodes.old).grid cells (R.looked nodes.old) (R.looked nodes.new) }
    ensures sound { (cells : List Cell) → TellsCells (R.file nodes.old) cells → IfErr result (λ fault. fault ≡ WalkFault.Failed) }
    ensures code { IfOk result (λ hit. IfSome hit (λ h. h.code < 8 ^ (R.file nodes.old).grid.depth)) }
    ensures cause { IfErr result (IsCaused (R.file nodes.old).words (R.faults nodes.old) (R.faults nodes.new)) }
    ensures later { R.faults nodes.old ≤ R.faults nodes.new }
    ensures same { R.file nodes.new ≡ R.file nodes.old }
    ensures lender { R.lender nodes.new ≡ R.lender nodes.old }
{
    let grid = nodes.grid();
    let totals = nodes.totals();
    let flight = Flight::new(ray, &grid);
    let stay = flight.root();
    if flight.entry(&stay).is_none() {
        return Ok(None);
    }
    let root = Spot {
        number: totals.records - 1,
        height: grid.depth(),
        code: 0,
        stay,
    };
    let best = walk(nodes, &flight, &root, None, reads)?;
    Ok(hit(ray, &grid, best))
}

/// The hit of a cell, once its time is taken from the cell's own cube.
fn hit(ray: &Ray, grid: &Grid, best: Option<Candidate>) -> Option<Hit>
    requires { IfSome best (λ b. b.code < 8 ^ grid.now.depth) }
    ensures { IsTimed ray.now grid.now best result }
{
    let Candidate { code, .. } = best?;
    let time = entry(ray, &cube_of(grid, grid.depth(), code))?;
    Some(Hit { time, code })
}
