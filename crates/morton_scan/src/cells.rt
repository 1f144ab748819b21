//! The filled cells of a part.

ghost use Rattle.std.specs.Prelude.{◌≡◌, ℕ, ◌+◌, ◌*◌, ◌^◌, ◌<◌, ◌≤◌, length, slice_index, MatchOption};
ghost use Rattle.bit_grid.specs.Touched.{AreTouched};
ghost use Rattle.morton_scan.specs.NextCells.{HasNoCellFrom, IsNextCell};

use bit_grid::{TouchedBlocks, next_slot, next_touched};

/// A filled cell: its Morton code, and the least face that meets it.
#[derive(Clone, Copy, Debug, PartialEq, Eq)]
pub struct FilledCell {
    pub code: u64,
    pub face: u32,
}

/// The filled cell of a part with the least code from `from` on, if there is one. The part is of
/// cells with `codes` codes each, and slot `place` is that of its code `part * codes + place`.
pub fn next_code(slots: &[u32], part: u32, codes: u64, from: u64) -> Option<FilledCell>
    requires slots { codes ≤ length slots.now }
    requires codes { (part + 1) * codes ≤ 2 ^ 60 }
    ensures { MatchOption result (HasNoCellFrom slots.now (part * codes) codes from) (λ cell. IsNextCell slots.now (part * codes) codes from cell.code cell.face) }
{
    let first = u64::from(part) * codes;
    let place = next_slot(&slots[..codes as usize], from.saturating_sub(first))?;
    Some(cell_at(slots, first, place))
}

/// The same, where only blocks of slots are searched that were touched.
pub fn next_touched_code(
    slots: &[u32],
    blocks: &TouchedBlocks,
    part: u32,
    codes: u64,
    from: u64,
) -> Option<FilledCell>
    requires touched { AreTouched slots.now blocks.now }
    requires slots { codes ≤ length slots.now }
    requires codes { (part + 1) * codes ≤ 2 ^ 60 }
    ensures { MatchOption result (HasNoCellFrom slots.now (part * codes) codes from) (λ cell. IsNextCell slots.now (part * codes) codes from cell.code cell.face) }
{
    let first = u64::from(part) * codes;
    let place = next_touched(slots, blocks, from.saturating_sub(first))?;
    if place >= codes {
        return None;
    }
    Some(cell_at(slots, first, place))
}

/// The filled cell whose slot is at a place, where the first slot is that of the code `first`.
fn cell_at(slots: &[u32], first: u64, place: u64) -> FilledCell
    requires place { place < length slots.now }
    requires filled { 0 < slice_index slots.now place }
    requires code { first + place < 2 ^ 60 }
    ensures code { result.code ≡ first + place }
    ensures face { slice_index slots.now place ≡ result.face + 1 }
{
    FilledCell {
        code: first + place,
        face: slots[place as usize] - 1,
    }
}
