//! The grey of a pixel.

ghost use Rattle.std.specs.Prelude.{◌≡◌, ◌≤◌, ◌<◌, ◌*◌, ◌^◌, List, IfOk};
ghost use Rattle.std.specs.Result.{IfErr};
ghost use Rattle.octree_specs.specs.Cells.{Cell};
ghost use Rattle.ray_walk.specs.Answers.{TellsCells};
ghost use Rattle.ray_walk.specs.Faults.{IsCaused};
ghost use Rattle.slice_view.specs.Greys.{IsGrey, IsGreyOfRay, grey_at, grey_of};

use crate::cameras::Camera;
use node_check::WalkFault;
use node_file::Records;
use ray_fraction::{Ray, Time};
use ray_walk::{Hit, cast};
use std::sync::ledger::Ledger;
use svo_base::Steps;

/// The grey of a pixel, which are counted row by row: that of the first cell that its ray hits, by
/// the time of the hit, or 0 where it hits none or has no direction.
pub fn grey<R: Records, L: Ledger>(
    nodes: &mut R,
    camera: &Camera,
    pixel: u32,
    reads: &mut Steps<L>,
) -> Result<u8, WalkFault>
    requires { pixel < camera.now.width * camera.now.height }
    ensures grey { (cells : List Cell) → TellsCells (R.file nodes.old) cells → IfOk result (IsGrey camera.now (R.file nodes.old).grid cells pixel) }
    ensures sound { (cells : List Cell) → TellsCells (R.file nodes.old) cells → IfErr result (λ fault. fault ≡ WalkFault.Failed) }
    ensures cause { IfErr result (IsCaused (R.file nodes.old).words (R.faults nodes.old) (R.faults nodes.new)) }
    ensures later { R.faults nodes.old ≤ R.faults nodes.new }
    ensures same { R.file nodes.new ≡ R.file nodes.old }
    ensures lender { R.lender nodes.new ≡ R.lender nodes.old }
{
    let width = camera.width();
    match camera.ray(pixel % width, pixel / width) {
        Ok(ray) => ray_grey(nodes, &ray, camera.far(), reads),
        Err(_fault) => Ok(0),
    }
}

/// The grey of a ray.
fn ray_grey<R: Records, L: Ledger>(
    nodes: &mut R,
    ray: &Ray,
    far: u64,
    reads: &mut Steps<L>,
) -> Result<u8, WalkFault>
    requires some { 1 ≤ far }
    requires limit { far ≤ 2 ^ 40 }
    ensures grey { (cells : List Cell) → TellsCells (R.file nodes.old) cells → IfOk result (IsGreyOfRay (R.file nodes.old).grid cells far ray.now) }
    ensures sound { (cells : List Cell) → TellsCells (R.file nodes.old) cells → IfErr result (λ fault. fault ≡ WalkFault.Failed) }
    ensures cause { IfErr result (IsCaused (R.file nodes.old).words (R.faults nodes.old) (R.faults nodes.new)) }
    ensures later { R.faults nodes.old ≤ R.faults nodes.new }
    ensures same { R.file nodes.new ≡ R.file nodes.old }
    ensures lender { R.lender nodes.new ≡ R.lender nodes.old }
{
    match cast(nodes, ray, reads) {
        Ok(hit) => Ok(grey_of(&hit, far)),
        Err(fault) => Err(fault),
    }
}

/// The grey of a hit, or of none.
fn grey_of(hit: &Option<Hit>, far: u64) -> u8
    requires some { 1 ≤ far }
    requires limit { far ≤ 2 ^ 40 }
    ensures { result ≡ grey_of far hit.now }
{
    match hit {
        None => 0,
        Some(hit) => grey_at(&hit.time, far),
    }
}

/// The grey of a hit: 255 at once, the less the later, and 1 beyond the far time.
#[tactic(auto, unfolding(crate::specs::Greys::grey_at))]
fn grey_at(time: &Time, far: u64) -> u8
    requires some { 1 ≤ far }
    requires limit { far ≤ 2 ^ 40 }
    ensures { result ≡ grey_at far time.now.n time.now.m }
{
    let reach = u128::from(far) * u128::from(time.m);
    let n = u128::from(time.n);
    if n > reach {
        return 1;
    }
    255 - (254 * n / reach) as u8
}
