//! The answers to rays and points, as lines.

ghost use Rattle.std.specs.Prelude.{◌≡◌, List, IfErr};
ghost use Rattle.octree_specs.specs.Cells.{Cell};
ghost use Rattle.near_query.specs.declared.cells.NearFault.{NearFault};
ghost use Rattle.node_check.specs.Counts.{HasCauseOf};
ghost use Rattle.node_check.specs.declared.walking.WalkFault.{WalkFault};
ghost use Rattle.ray_walk.specs.Answers.{TellsCells};
ghost use Rattle.ray_answers.specs.LineCalls.{IsOfKind};
ghost use Rattle.ray_answers.specs.Runs.{FindsLine, RefusesNear};
ghost use Rattle.ray_answers.specs.declared.queries.QueryKind.{QueryKind};
ghost use Rattle.ray_answers.specs.declared.queries.QueryKind.TheVariants.{Points};

use crate::answer_line::AnswerLine;
use crate::hits::{hit_line, hit_of};
use crate::neighbours::{near_line, neighbour_of};
use crate::queries::Query;
use near_query::{NearFault, Search};
use node_file::Records;
use std::sync::ledger::Ledger;
use svo_base::Steps;

/// The line of the answer to a query.
pub fn answer_of<R: Records, L: Ledger>(
    nodes: &mut R,
    query: &Query,
    search: &mut Search,
    reads: &mut Steps<L>,
) -> Result<AnswerLine, NearFault>
    ensures found { (cells : List Cell) → TellsCells (R.file nodes.old) cells → FindsLine (R.file nodes.old).grid cells query.now result }
    ensures refused { RefusesNear (R.file nodes.old).words (R.file nodes.old).totals.records (R.file nodes.old).grid.depth result }
    ensures memory { (kind : QueryKind) → IsOfKind kind query.now → IfErr result (λ fault. fault ≡ NearFault.Memory → kind ≡ Points) }
    ensures cause { HasCauseOf (R.faults nodes.old) (R.faults nodes.new) result (NearFault.Walk WalkFault.Failed) }
    ensures same { R.file nodes.new ≡ R.file nodes.old }
    ensures lender { R.lender nodes.new ≡ R.lender nodes.old }
{
    match query {
        Query::Ray(ray) => match hit_of(nodes, ray, reads) {
            Err(fault) => Err(NearFault::Walk(fault)),
            Ok(answer) => Ok(hit_line(&answer)),
        },
        Query::Point(point) => match neighbour_of(nodes, point, search, reads) {
            Err(fault) => Err(fault),
            Ok(answer) => Ok(near_line(&answer)),
        },
    }
}
