//! The bytes before and behind a file's words.

ghost use Rattle.std.specs.Prelude.{◌≡◌, ◌==◌, ◌++◌, ◌+◌, ◌*◌, ◌≤◌, cond, codes, length, IsOk};
ghost use Rattle.std.specs.List.{flat_map};
ghost use Rattle.std.specs.Int.{w64, cast_unsigned, to_le_bytes};
ghost use Rattle.arrayvec.specs.ArrayVec.{array_vec_len};
ghost use Rattle.octree_specs.specs.OctreeFile.{header_of, trailer_of};

use arrayvec::ArrayVec;
use svo_base::Grid;

/// The header of a grid's file in format 2.
pub fn header_bytes(grid: &Grid) -> [u8; 48]
    ensures { result ≡ header_of 2 grid.now }
{
    header_in(2, grid)
}

/// The header of a grid's file in a format, 1 or 2.
#[tactic(auto, using(crate::proofs::Joining::joining), unfolding(octree_specs::specs::OctreeFile::header_of))]
pub fn header_in(format: u32, grid: &Grid) -> [u8; 48]
    ensures { result ≡ header_of format grid.now }
{
    let mut bytes = ArrayVec::<u8, 48>::new();
    extend(&mut bytes, name_of(format));
    extend(&mut bytes, &grid.depth().to_le_bytes());
    extend(&mut bytes, &0u32.to_le_bytes());
    extend(&mut bytes, &origin_bytes(grid));
    extend(&mut bytes, &side_bytes(grid));
    bytes.into_inner().unwrap()
}

/// The components of a grid's origin.
fn origin_bytes(grid: &Grid) -> [u8; 24]
    ensures { result ≡ flat_map (λ o. to_le_bytes w64 (cast_unsigned w64 o)) grid.now.origin }
{
    let mut bytes = ArrayVec::<u8, 24>::new();
    extend_origin(&mut bytes, &grid.origin());
    bytes.into_inner().unwrap()
}

/// The side of a grid's cells.
fn side_bytes(grid: &Grid) -> [u8; 8]
    ensures { result ≡ to_le_bytes w64 grid.now.cell }
{
    grid.cell().unsigned_abs().to_le_bytes()
}

/// The trailer of a file of format 2 with so many words and filled cells.
pub fn trailer_bytes(records: u64, cells: u64) -> [u8; 32]
    ensures { result ≡ trailer_of 2 records cells }
{
    trailer_in(2, records, cells)
}

/// The trailer of a file in a format, 1 or 2, with so many words and filled cells.
#[tactic(auto, using(crate::proofs::Joining::joining), unfolding(octree_specs::specs::OctreeFile::trailer_of))]
pub fn trailer_in(format: u32, records: u64, cells: u64) -> [u8; 32]
    ensures { result ≡ trailer_of format records cells }
{
    let mut bytes = ArrayVec::<u8, 32>::new();
    extend(&mut bytes, &0u64.to_le_bytes());
    extend(&mut bytes, &records.to_le_bytes());
    extend(&mut bytes, &cells.to_le_bytes());
    extend(&mut bytes, end_of(format));
    bytes.into_inner().unwrap()
}

/// The name that a file of a format begins with.
fn name_of(format: u32) -> &'static [u8; 8]
    ensures { result.now ≡ cond (format == 1) (codes "SVOCUBE1") (codes "SVOCUBE2") }
{
    if format == 1 {
        b"SVOCUBE1"
    } else {
        b"SVOCUBE2"
    }
}

/// The name that a file of a format ends with.
fn end_of(format: u32) -> &'static [u8; 8]
    ensures { result.now ≡ cond (format == 1) (codes "SVOCEND1") (codes "SVOCEND2") }
{
    if format == 1 {
        b"SVOCEND1"
    } else {
        b"SVOCEND2"
    }
}

/// Adds a piece for which there is room.
fn extend<const SIZE: usize>(bytes: &mut ArrayVec<u8, SIZE>, piece: &[u8])
    requires { array_vec_len bytes.old + length piece.now ≤ SIZE }
    ensures items { bytes.new.items ≡ bytes.old.items ++ piece.now }
    ensures len { array_vec_len bytes.new ≡ array_vec_len bytes.old + length piece.now }
{
    bytes.try_extend_from_slice(piece).unwrap();
}

/// Adds the components of an origin.
fn extend_origin(bytes: &mut ArrayVec<u8, 24>, origin: &[i64; 3])
    requires { array_vec_len bytes.old ≡ 0 }
    ensures items { bytes.new.items
        ≡ bytes.old.items ++ flat_map (λ o. to_le_bytes w64 (cast_unsigned w64 o)) origin.now }
    ensures len { array_vec_len bytes.new ≡ 24 }
{
    for component in origin {
        extend(bytes, &component.to_le_bytes());
    }
}
