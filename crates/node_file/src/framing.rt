//! What the bytes before and behind a file's words say.

ghost use Rattle.std.specs.Prelude.{◌≡◌, ◌+◌, ◌≤◌, ℕ, length, take, drop, Some, IfSome, IfNone};
ghost use Rattle.std.specs.Int.{w32, w64, cast_signed, from_le_bytes};
ghost use Rattle.svo_base.specs.GridShape.{GridShape, IsGrid};
ghost use Rattle.octree_specs.specs.Formats.{IsFormat};
ghost use Rattle.octree_specs.specs.OctreeFile.{header_of, trailer_of};
ghost use Rattle.node_file.specs.Framing.{IsHeader, IsTrailer};
ghost use Rattle.node_file.specs.declared.records.Totals.{Totals};

use crate::layout::{header_in, trailer_in};
use crate::records::Totals;
use svo_base::Grid;

/// The grid of a header of format 1 or 2. None where the name of the format or the zero is another,
/// or where the depth, the origin and the side of a cell are those of no grid within the limits.
pub fn read_header(bytes: &[u8; 48]) -> Option<Grid>
    ensures found { IfSome result (λ grid. (format : ℕ) × IsHeader format grid bytes.now) }
    ensures missing { IfNone result ((format : ℕ) → (grid : GridShape) → IsHeader format grid bytes.now → ⊥) }
{
    let (_, grid) = header_parts(bytes)?;
    Some(grid)
}

/// The number of a header's format, 1 or 2. None exactly where [`read_header`] gives none.
pub fn read_format(bytes: &[u8; 48]) -> Option<u32>
    ensures found { IfSome result (λ format. (grid : GridShape) × IsHeader format grid bytes.now) }
    ensures missing { IfNone result ((format : ℕ) → (grid : GridShape) → IsHeader format grid bytes.now → ⊥) }
{
    let (format, _) = header_parts(bytes)?;
    Some(format)
}

/// The numbers of words and of cells in a trailer of format 1 or 2. None where the zero or the name
/// of the format's end is another.
pub fn read_trailer(bytes: &[u8; 32]) -> Option<Totals>
    ensures found { IfSome result (λ totals. (format : ℕ) × IsTrailer format totals bytes.now) }
    ensures missing { IfNone result ((format : ℕ) → (totals : Totals) → IsTrailer format totals bytes.now → ⊥) }
{
    let (_, totals) = trailer_parts(bytes)?;
    Some(totals)
}

/// The format and the grid of a header.
pub fn header_parts(bytes: &[u8; 48]) -> Option<(u32, Grid)>
    ensures found { IfSome result (λ parts. IsHeader parts.0 parts.1 bytes.now) }
    ensures missing { IfNone result ((format : ℕ) → (grid : GridShape) → IsHeader format grid bytes.now → ⊥) }
{
    let grid = grid_at(bytes)?;
    if bytes == &header_in(1, &grid) {
        return Some((1, grid));
    }
    if bytes == &header_in(2, &grid) {
        return Some((2, grid));
    }
    None
}

/// The format and the numbers of a trailer.
pub fn trailer_parts(bytes: &[u8; 32]) -> Option<(u32, Totals)>
    ensures found { IfSome result (λ parts. IsTrailer parts.0 parts.1 bytes.now) }
    ensures missing { IfNone result ((format : ℕ) → (totals : Totals) → IsTrailer format totals bytes.now → ⊥) }
{
    let totals = totals_at(bytes);
    if bytes == &trailer_in(1, totals.records, totals.cells) {
        return Some((1, totals));
    }
    if bytes == &trailer_in(2, totals.records, totals.cells) {
        return Some((2, totals));
    }
    None
}

/// The grid of the numbers in a header, whatever else it has.
fn grid_at(bytes: &[u8; 48]) -> Option<Grid>
    ensures { (format : ℕ) → (grid : GridShape) → IsHeader format grid bytes.now → result ≡ Some grid }
{
    let origin = [
        signed_at(bytes, 16),
        signed_at(bytes, 24),
        signed_at(bytes, 32),
    ];
    Grid::new(i64::from(depth_at(bytes)), origin, signed_at(bytes, 40)).ok()
}

/// The depth in a header.
fn depth_at(bytes: &[u8; 48]) -> u32
    ensures { result ≡ from_le_bytes w32 (take 4 (drop 8 bytes.now)) }
{
    u32::from_le_bytes(bytes[8..12].try_into().unwrap())
}

/// The numbers in a trailer, whatever else it has.
fn totals_at(bytes: &[u8; 32]) -> Totals
    ensures { (format : ℕ) → (totals : Totals) → IsTrailer format totals bytes.now → result ≡ totals }
{
    Totals {
        records: number_at(bytes, 8),
        cells: number_at(bytes, 16),
    }
}

/// The number in the eight bytes from a place on.
pub fn number_at(bytes: &[u8], at: usize) -> u64
    requires { at + 8 ≤ length bytes.now }
    ensures { result ≡ from_le_bytes w64 (take 8 (drop at bytes.now)) }
{
    u64::from_le_bytes(bytes[at..at + 8].try_into().unwrap())
}

/// The number with a sign in the eight bytes from a place on.
fn signed_at(bytes: &[u8], at: usize) -> i64
    requires { at + 8 ≤ length bytes.now }
    ensures { result ≡ cast_signed w64 (from_le_bytes w64 (take 8 (drop at bytes.now))) }
{
    i64::from_le_bytes(bytes[at..at + 8].try_into().unwrap())
}
