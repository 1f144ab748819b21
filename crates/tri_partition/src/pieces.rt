//! Parcels as bytes: nine little-endian coordinates and the face, of 4 bytes each.

ghost use Rattle.std.specs.Prelude.{◌≡◌, ◌≤◌, ◌+◌, ◌*◌, ◌++◌, length, take};
ghost use Rattle.std.specs.List.{flat_map};
ghost use Rattle.tri_partition.specs.PartStreams.{faced_of, parcel_from};
ghost use Rattle.tri_partition.specs.Partitioning.{bytes_of};

use byteorder::{ByteOrder, LittleEndian};
use room_plan::Parcel;

/// How many bytes a parcel has on scratch.
pub const PIECE_SIZE: usize = 40;

/// How many of these bytes are coordinates.
const CORNERS_SIZE: usize = 36;

/// The parcel of a part that the first 40 bytes stand for.
#[tactic(auto, unfolding(crate::specs::PartStreams::faced_of, crate::specs::PartStreams::parcel_from))]
pub fn read_parcel(bytes: &[u8], part: u32) -> Parcel
    requires { 40 ≤ length bytes.now }
    ensures faced { faced_of result ≡ parcel_from bytes.now }
    ensures part { result.part ≡ part }
{
    let mut corners = [0; 9];
    LittleEndian::read_i32_into(&bytes[..CORNERS_SIZE], &mut corners);
    Parcel {
        corners,
        face: LittleEndian::read_u32(&bytes[CORNERS_SIZE..]),
        part,
    }
}

/// The 40 bytes of a parcel.
fn parcel_bytes(parcel: &Parcel) -> [u8; PIECE_SIZE]
    ensures { result ≡ bytes_of parcel.now }
{
    let mut bytes = [0; PIECE_SIZE];
    LittleEndian::write_i32_into(&parcel.corners, &mut bytes[..CORNERS_SIZE]);
    LittleEndian::write_u32(&mut bytes[CORNERS_SIZE..], parcel.face);
    bytes
}

/// Writes the bytes of a parcel behind the bytes that were written, and answers how many were written
/// then.
fn write_parcel(block: &mut [u8], used: usize, parcel: &Parcel) -> usize
    requires { used + 40 ≤ length block.old }
    ensures written { take result block.new ≡ take used block.old ++ bytes_of parcel.now }
    ensures result { result ≡ used + 40 }
    ensures room { length block.new ≡ length block.old }
{
    let end = used + PIECE_SIZE;
    block[used..end].copy_from_slice(&parcel_bytes(parcel));
    end
}

/// Writes the bytes of parcels one after another, and answers how many there are.
pub fn write_parcels(block: &mut [u8], parcels: &[Parcel]) -> usize
    requires { 40 * length parcels.now ≤ length block.old }
    ensures written { take result block.new ≡ flat_map bytes_of parcels.now }
    ensures room { result ≤ length block.new }
{
    let mut used = 0;
    for parcel in parcels {
        used = write_parcel(block, used, parcel);
    }
    used
}
