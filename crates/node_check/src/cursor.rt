//! A walk over all filled cells of a file.

ghost use Rattle.std.specs.Prelude.{IfErr, ◌≡◌, ℕ, ◌+◌, ◌-◌, ◌*◌, ◌/◌, ◌%◌, ◌^◌, ◌<◌, ◌≤◌, List, IfSome, IfOk, OnOk};

use crate::following::next_under;
use crate::paths::Path;
use crate::queries::cell_face;
use crate::walking::{Node, WalkFault, root};
use node_file::Records;
use std::sync::ledger::Ledger;
use svo_base::Steps;

/// A filled cell with its face.
#[derive(Clone, Copy, Debug, PartialEq, Eq)]
pub struct FacedCell {
    pub code: u64,
    pub face: u32,
}

/// A walk over the filled cells of a file, in ascending order of their codes. It keeps a node of each
/// height, so that a run of calls does not begin at the root for each cell. After a fault it is only
/// dropped.
#[derive(Drop)]
pub struct CellWalk {
    // The next cell has this code, or a greater one.
    from: u64,
    depth: u32,
    root: Node,
    path: Path,
}

impl CellWalk {
    ghost use Rattle.octree_specs.specs.Cells.{Cell};
    ghost use Rattle.octree_specs.specs.Formats.{StandFor};
    ghost use Rattle.node_check.specs.Counts.{HasCauseOf, LooksAsReads};
    ghost use Rattle.node_check.specs.Walks.{RefusesAbove, GivesNext};
    ghost use Rattle.node_check.specs.Cursors.{IsOn, IsParent, GivesNextFaced, RefusesAtNoCell};
    ghost use Rattle.node_check.specs.declared.walking.WalkFault.TheVariants.{Failed};

    /// A walk over the cells of a file whose codes are at least `from`. It reads the root.
    ///
    /// # Errors
    ///
    /// `Failed`: the read failed.
    pub fn new<R: Records, L: Ledger>(
        nodes: &mut R,
        from: u64,
        reads: &mut Steps<L>,
    ) -> Result<CellWalk, WalkFault>
        ensures on { IfOk result (IsOn (R.file nodes.old)) }
        ensures from { IfOk result (λ walk. walk.from ≡ from) }
        ensures unrefused { IfErr result (λ fault. fault ≡ Failed) }
        ensures reads { reads.new ≡ reads.old + 1 }
        ensures looked { LooksAsReads (R.looked nodes.old) (R.looked nodes.new) reads.old reads.new }
        ensures same { R.file nodes.new ≡ R.file nodes.old }
        ensures lender { R.lender nodes.new ≡ R.lender nodes.old }
        ensures cause { HasCauseOf (R.faults nodes.old) (R.faults nodes.new) result Failed }
    {
        let depth = nodes.grid().depth();
        let root = root(nodes, reads)?;
        Ok(CellWalk {
            from,
            depth,
            root,
            path: Path::at(root),
        })
    }

    /// The code of the next filled cell, or `None` behind the last.
    ///
    /// # Errors
    ///
    /// - `Refused`: a word's children do not all stand before it, so that the file is no node file.
    /// - `Failed`: a read failed.
    pub fn next<R: Records, L: Ledger>(
        &mut self,
        nodes: &mut R,
        reads: &mut Steps<L>,
    ) -> Result<Option<u64>, WalkFault>
        requires on { IsOn (R.file nodes.old) self.old }
        ensures told { IfSome (R.file nodes.old).words (λ words. (cells : List Cell) → StandFor (R.file nodes.old).format (R.file nodes.old).grid.depth words cells → GivesNext cells self.old.from result) }
        ensures inside { IfOk result (λ next. IfSome next (λ code. (self.old.from ≤ code) × (code < 8 ^ (R.file nodes.old).grid.depth))) }
        ensures from { IfOk result (λ next. IfSome next (λ code. self.new.from ≡ code + 1)) }
        ensures on { IsOn (R.file nodes.old) self.new }
        ensures parent { IfOk result (λ next. IfSome next (λ code. IsParent (R.file nodes.old).words (R.file nodes.old).totals.records (R.file nodes.old).format (R.file nodes.old).grid.depth 0 ((R.file nodes.old).totals.records - 1) code self.new.path.parent)) }
        ensures refused { RefusesAbove (R.file nodes.old).words (R.file nodes.old).totals.records result }
        ensures looked { LooksAsReads (R.looked nodes.old) (R.looked nodes.new) reads.old reads.new }
        ensures same { R.file nodes.new ≡ R.file nodes.old }
        ensures lender { R.lender nodes.new ≡ R.lender nodes.old }
        ensures cause { HasCauseOf (R.faults nodes.old) (R.faults nodes.new) result Failed }
    {
        let root = self.root;
        let next = next_under(
            nodes,
            &mut self.path,
            self.depth,
            &root,
            0,
            self.from,
            reads,
        )?;
        if let Some(code) = next {
            self.from = code + 1;
        }
        Ok(next)
    }

    /// The next filled cell with its face, or `None` behind the last. In format 1, which keeps no
    /// faces, it is 0.
    ///
    /// # Errors
    ///
    /// - `Refused`: a word's children do not all stand before it, or the word to which masks and bases
    ///   lead is that of no cell, so that the file is no node file.
    /// - `Failed`: a read failed.
    pub fn next_faced<R: Records, L: Ledger>(
        &mut self,
        nodes: &mut R,
        reads: &mut Steps<L>,
    ) -> Result<Option<FacedCell>, WalkFault>
        requires on { IsOn (R.file nodes.old) self.old }
        ensures told { IfSome (R.file nodes.old).words (λ words. (cells : List Cell) → StandFor (R.file nodes.old).format (R.file nodes.old).grid.depth words cells → GivesNextFaced cells self.old.from result) }
        ensures inside { IfOk result (λ next. IfSome next (λ cell. (self.old.from ≤ cell.code) × (cell.code < 8 ^ (R.file nodes.old).grid.depth) × (cell.face ≤ 4294967294))) }
        ensures from { IfOk result (λ next. IfSome next (λ cell. self.new.from ≡ cell.code + 1)) }
        ensures on { IsOn (R.file nodes.old) self.new }
        ensures refused { RefusesAtNoCell (R.file nodes.old).words (R.file nodes.old).totals.records (R.file nodes.old).grid.depth result }
        ensures looked { LooksAsReads (R.looked nodes.old) (R.looked nodes.new) reads.old reads.new }
        ensures same { R.file nodes.new ≡ R.file nodes.old }
        ensures lender { R.lender nodes.new ≡ R.lender nodes.old }
        ensures cause { HasCauseOf (R.faults nodes.old) (R.faults nodes.new) result Failed }
    {
        let Some(code) = self.next(nodes, reads)? else {
            return Ok(None);
        };
        let face = cell_face(nodes, &self.path.parent, code, reads)?;
        Ok(Some(FacedCell { code, face }))
    }
}
