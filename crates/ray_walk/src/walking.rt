//! The walk under a node.

ghost use Rattle.std.specs.Prelude.{◌≡◌, ℕ, ◌+◌, ◌<◌, ◌≤◌, ◌^◌, List, IfOk, IfSome};
ghost use Rattle.std.specs.Result.{IfErr};
ghost use Rattle.dev_traits.specs.Faults.{Rose};
ghost use Rattle.node_file.specs.Told.{GivesWord};
ghost use Rattle.octree_specs.specs.Cells.{Cell};
ghost use Rattle.ray_walk.specs.Faults.{IsCaused};
ghost use Rattle.ray_walk.specs.Stays.{IsFlight};
ghost use Rattle.ray_walk.specs.Steps.{IsOnTree, IsSpot, IsWalked};

use crate::flights::Flight;
use crate::hits::Candidate;
use crate::spots::{Spot, Step, next};
use node_check::WalkFault;
use node_file::Records;
use std::sync::ledger::Ledger;
use svo_base::Steps;

/// The best of the hit that is known and of those under a node. Children are visited in the order in
/// which the ray passes them, and walked where the ray enters them not later than the best hit so far.
pub fn walk<R: Records, L: Ledger>(
    nodes: &mut R,
    flight: &Flight,
    spot: &Spot,
    known: Option<Candidate>,
    reads: &mut Steps<L>,
) -> Result<Option<Candidate>, WalkFault>
    requires flight { IsFlight flight.now }
    requires spot { IsSpot flight.now spot.now }
    requires number { spot.now.number < (R.file nodes.old).totals.records }
    requires known { IfSome known (λ best. best.code < 8 ^ flight.now.grid.depth) }
    ensures walked { (words : List ℕ) (cells : List Cell) → IsOnTree (R.file nodes.old).words flight.now spot.now known words cells → IsWalked flight.now spot.now known cells reads.old reads.new result }
    ensures code { IfOk result (λ best. IfSome best (λ b. b.code < 8 ^ flight.now.grid.depth)) }
    ensures cause { IfErr result (IsCaused (R.file nodes.old).words (R.faults nodes.old) (R.faults nodes.new)) }
    ensures later { R.faults nodes.old ≤ R.faults nodes.new }
    ensures looked { R.looked nodes.new + reads.old ≤ R.looked nodes.old + reads.new }
    ensures same { R.file nodes.new ≡ R.file nodes.old }
    ensures lender { R.lender nodes.new ≡ R.lender nodes.old }
{
    let word = read_word(nodes, spot.number, reads)?;
    let mut best = known;
    for k in 0..8 {
        match next(flight, spot, word, k, best)? {
            Step::Skip => {}
            Step::Take(cell) => best = Some(cell),
            Step::Enter(child) => best = walk(nodes, flight, &child, best, reads)?,
        }
    }
    Ok(best)
}

/// The word of a number, for walks.
///
/// # Errors
/// `Failed`: the read failed, where a fault was counted.
pub fn read_word<R: Records, L: Ledger>(
    nodes: &mut R,
    number: u64,
    reads: &mut Steps<L>,
) -> Result<u64, WalkFault>
    requires { number < (R.file nodes.old).totals.records }
    ensures word { GivesWord (R.file nodes.old).words number result }
    ensures cause { IfErr result (λ fault. (fault ≡ WalkFault.Failed) × Rose (R.faults nodes.old) (R.faults nodes.new)) }
    ensures later { R.faults nodes.old ≤ R.faults nodes.new }
    ensures reads { reads.new ≡ reads.old + 1 }
    ensures looked { R.looked nodes.new ≤ R.looked nodes.old + 1 }
    ensures same { R.file nodes.new ≡ R.file nodes.old }
    ensures lender { R.lender nodes.new ≡ R.lender nodes.old }
{
    match nodes.word(number, reads) {
        Ok(word) => Ok(word),
        Err(_) => Err(WalkFault::Failed),
    }
}
