//! The words of siblings, read together.

ghost use Rattle.std.specs.Prelude.{◌≡◌, ℕ, ◌+◌, ◌^◌, ◌<◌, ◌≤◌, slice_index, IfSome, IfOk, OnOk};
ghost use Rattle.dev_traits.specs.Faults.{HasCause};
ghost use Rattle.node_check.specs.Counts.{LooksAsReads};

use dev_traits::Failed;
use node_file::Records;
use std::sync::ledger::Ledger;
use svo_base::Steps;

/// Reads so many words from a number on.
pub fn read_siblings<R: Records, L: Ledger>(
    nodes: &mut R,
    base: u64,
    count: u32,
    reads: &mut Steps<L>,
) -> Result<[u64; 8], Failed>
    requires count { count ≤ 8 }
    requires small { base < 2 ^ 60 }
    requires there { base + count ≤ (R.file nodes.old).totals.records }
    ensures words { IfSome (R.file nodes.old).words (λ words. IfOk result (λ siblings. (place : ℕ) → place < count → slice_index siblings place ≡ slice_index words (base + place))) }
    ensures once { OnOk result (reads.new ≡ reads.old + count) }
    ensures few { reads.new ≤ reads.old + count }
    ensures looked { LooksAsReads (R.looked nodes.old) (R.looked nodes.new) reads.old reads.new }
    ensures same { R.file nodes.new ≡ R.file nodes.old }
    ensures lender { R.lender nodes.new ≡ R.lender nodes.old }
    ensures cause { HasCause (R.faults nodes.old) (R.faults nodes.new) result }
{
    let mut siblings = [0; 8];
    for place in 0..count {
        siblings[place as usize] = nodes.word(base + u64::from(place), reads)?;
    }
    Ok(siblings)
}
