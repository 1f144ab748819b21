//! The answers to rays.

ghost use Rattle.std.specs.Prelude.{◌≡◌, ◌<◌, ◌^◌, List};
ghost use Rattle.octree_specs.specs.Cells.{Cell};
ghost use Rattle.node_check.specs.Counts.{HasCauseOf};
ghost use Rattle.node_check.specs.declared.walking.WalkFault.TheVariants.{Failed};
ghost use Rattle.ray_walk.specs.Answers.{TellsCells};
ghost use Rattle.ray_answers.specs.AnswerLines.{hit_line};
ghost use Rattle.ray_answers.specs.Runs.{FindsHit, HasFace, RefusesWalk};

use crate::answer_line::{AnswerLine, push_number};
use node_check::{WalkFault, face_of};
use node_file::Records;
use ray_fraction::Ray;
use ray_walk::{Hit, cast};
use std::sync::ledger::Ledger;
use svo_base::Steps;

/// The first filled cell that a ray hits: at the time n / m, with its Morton code and its face.
#[derive(Clone, Copy, Debug, PartialEq, Eq)]
pub struct FacedHit {
    pub n: u64,
    pub m: u64,
    pub code: u64,
    pub face: u32,
}

/// The answer to a ray. A cell that is hit has a face in every node file; on other words, where it may
/// have none, it is no hit.
pub fn hit_of<R: Records, L: Ledger>(
    nodes: &mut R,
    ray: &Ray,
    reads: &mut Steps<L>,
) -> Result<Option<FacedHit>, WalkFault>
    ensures found { (cells : List Cell) → TellsCells (R.file nodes.old) cells → FindsHit (R.file nodes.old).grid cells ray.now result }
    ensures refused { RefusesWalk (R.file nodes.old).words (R.file nodes.old).totals.records (R.file nodes.old).grid.depth result }
    ensures cause { HasCauseOf (R.faults nodes.old) (R.faults nodes.new) result Failed }
    ensures same { R.file nodes.new ≡ R.file nodes.old }
    ensures lender { R.lender nodes.new ≡ R.lender nodes.old }
{
    match cast(nodes, ray, reads) {
        Err(fault) => Err(fault),
        Ok(None) => Ok(None),
        Ok(Some(hit)) => faced(nodes, &hit, reads),
    }
}

/// The hit with the face of its cell.
fn faced<R: Records, L: Ledger>(
    nodes: &mut R,
    hit: &Hit,
    reads: &mut Steps<L>,
) -> Result<Option<FacedHit>, WalkFault>
    requires { hit.now.code < 8 ^ (R.file nodes.old).grid.depth }
    ensures face { (cells : List Cell) → TellsCells (R.file nodes.old) cells → HasFace cells hit.now result }
    ensures refused { RefusesWalk (R.file nodes.old).words (R.file nodes.old).totals.records (R.file nodes.old).grid.depth result }
    ensures cause { HasCauseOf (R.faults nodes.old) (R.faults nodes.new) result Failed }
    ensures same { R.file nodes.new ≡ R.file nodes.old }
    ensures lender { R.lender nodes.new ≡ R.lender nodes.old }
{
    match face_of(nodes, hit.code, reads) {
        Err(fault) => Err(fault),
        Ok(None) => Ok(None),
        Ok(Some(face)) => Ok(Some(FacedHit {
            n: hit.time.n,
            m: hit.time.m,
            code: hit.code,
            face,
        })),
    }
}

/// The line of a hit, or of none.
#[tactic(auto, unfolding(crate::specs::AnswerLines::hit_line))]
pub fn hit_line(answer: &Option<FacedHit>) -> AnswerLine
    ensures { result.bytes ≡ hit_line answer.now }
{
    let mut line = AnswerLine::new();
    match answer {
        None => line.push_str("none\n"),
        Some(hit) => {
            line.push_str("hit ");
            push_number(&mut line, hit.n);
            line.push_str("/");
            push_number(&mut line, hit.m);
            line.push_str(" cell ");
            push_number(&mut line, hit.code);
            line.push_str(" face ");
            push_number(&mut line, u64::from(hit.face));
            line.push_str("\n");
        }
    }
    line
}
