//! Parcels in memory, appended to the streams of their parts.

ghost use Rattle.std.specs.Prelude.{◌≡◌, ◌<◌, ◌≤◌, [], ◌∷◌, ℕ, All, IsPermutation, length, slice_index_or, take, OnOk, OnErr, IfOk};
ghost use Rattle.dev_traits.specs.Faults.{HasCause};
ghost use Rattle.room_plan.specs.declared.elements.Parcel.{Parcel};
ghost use Rattle.tri_partition.specs.PartStreams.{HasStream};
ghost use Rattle.tri_partition.specs.Partitioning.{appended_known, Spills, StayInParts};

use crate::pieces::{PIECE_SIZE, write_parcels};
use dev_traits::{Failed, Scratch};
use room_plan::Parcel;

/// How many parcels one call appends at most.
const RUN_PARCELS: usize = 64;

/// How many bytes they have.
const RUN_SIZE: usize = RUN_PARCELS * PIECE_SIZE;

/// Appends the first parcels of a pool to the streams of their parts, those of one part together. They
/// are sorted by part first, in place.
pub fn spill<S: Scratch>(pool: &mut [Parcel], used: usize, scratch: &mut S) -> Result<(), Failed>
    requires used { used ≤ length pool.old }
    requires streams { All (λ p. HasStream (S.started scratch.old) p.part) (take used pool.old) }
    ensures spilled { OnOk result (Spills (S.told scratch.old) (S.told scratch.new) (take used pool.old) [] []) }
    ensures same { IsPermutation (take used pool.old) (take used pool.new) }
    ensures started { S.started scratch.new ≡ S.started scratch.old }
    ensures asked { S.asked scratch.new ≡ S.asked scratch.old }
    ensures cause { HasCause (S.faults scratch.old) (S.faults scratch.new) result }
{
    sort_by_part(&mut pool[..used]);
    append_runs(&pool[..used], scratch)?;
    Ok(())
}

/// Has room for one more parcel behind the first ones of a pool, which are appended where the pool is
/// full. Answers how many wait then.
fn make_room<S: Scratch>(pool: &mut [Parcel], used: usize, scratch: &mut S) -> Result<usize, Failed>
    requires some { 0 < length pool.old }
    requires used { used ≤ length pool.old }
    requires streams { All (λ p. HasStream (S.started scratch.old) p.part) (take used pool.old) }
    ensures spilled { IfOk result (λ n. Spills (S.told scratch.old) (S.told scratch.new) (take used pool.old) [] (take n pool.new)) }
    ensures parts { IfOk result (λ n. StayInParts (take used pool.old) (take n pool.new)) }
    ensures same { IsPermutation (take used pool.old) (take used pool.new) }
    ensures room { IfOk result (λ n. n < length pool.new) }
    ensures started { S.started scratch.new ≡ S.started scratch.old }
    ensures asked { S.asked scratch.new ≡ S.asked scratch.old }
    ensures cause { HasCause (S.faults scratch.old) (S.faults scratch.new) result }
{
    if used < pool.len() {
        return Ok(used);
    }
    spill(pool, used, scratch)?;
    Ok(0)
}

/// Adds a parcel behind the first ones of a pool, which are appended first where the pool is full.
/// Answers how many wait then.
pub fn put<S: Scratch>(
    pool: &mut [Parcel],
    used: usize,
    parcel: &Parcel,
    scratch: &mut S,
) -> Result<usize, Failed>
    requires some { 0 < length pool.old }
    requires used { used ≤ length pool.old }
    requires streams { All (λ p. HasStream (S.started scratch.old) p.part) (take used pool.old) }
    ensures spilled { IfOk result (λ n. Spills (S.told scratch.old) (S.told scratch.new) (take used pool.old) (parcel.now ∷ []) (take n pool.new)) }
    ensures parts { IfOk result (λ n. (parts : ℕ) → All (λ p. p.part < parts) (take used pool.old) → parcel.now.part < parts → All (λ p. p.part < parts) (take n pool.new)) }
    ensures refused { OnErr result (IsPermutation (take used pool.old) (take used pool.new)) }
    ensures used { IfOk result (λ n. n ≤ length pool.new) }
    ensures started { S.started scratch.new ≡ S.started scratch.old }
    ensures asked { S.asked scratch.new ≡ S.asked scratch.old }
    ensures cause { HasCause (S.faults scratch.old) (S.faults scratch.new) result }
{
    let used = make_room(pool, used, scratch)?;
    pool[used] = *parcel;
    Ok(used + 1)
}

/// Brings the parcels of each part together.
fn sort_by_part(parcels: &mut [Parcel])
    ensures { IsPermutation parcels.old parcels.new }
{
    parcels.sort_unstable_by_key(|parcel| parcel.part);
}

/// Appends parcels in their order, a run of one part at a time.
fn append_runs<S: Scratch>(parcels: &[Parcel], scratch: &mut S) -> Result<(), Failed>
    requires streams { All (λ p. HasStream (S.started scratch.old) p.part) parcels.now }
    ensures appended { OnOk result (S.told scratch.new ≡ appended_known (S.told scratch.old) parcels.now) }
    ensures started { S.started scratch.new ≡ S.started scratch.old }
    ensures asked { S.asked scratch.new ≡ S.asked scratch.old }
    ensures cause { HasCause (S.faults scratch.old) (S.faults scratch.new) result }
{
    let mut from = 0;
    while from < parcels.len() {
        from += append_run(&parcels[from..], scratch)?;
    }
    Ok(())
}

/// Appends the first parcels, as many as belong to one part and one call takes, and answers how many
/// they are.
fn append_run<S: Scratch>(parcels: &[Parcel], scratch: &mut S) -> Result<usize, Failed>
    requires some { 0 < length parcels.now }
    requires streams { All (λ p. HasStream (S.started scratch.old) p.part) parcels.now }
    ensures appended { IfOk result (λ n. S.told scratch.new ≡ appended_known (S.told scratch.old) (take n parcels.now)) }
    ensures some { IfOk result (λ n. (0 < n) × (n ≤ length parcels.now)) }
    ensures started { S.started scratch.new ≡ S.started scratch.old }
    ensures asked { S.asked scratch.new ≡ S.asked scratch.old }
    ensures cause { HasCause (S.faults scratch.old) (S.faults scratch.new) result }
{
    let part = parcels[0].part;
    let size = run_length(parcels, part);
    let mut bytes = [0; RUN_SIZE];
    let used = write_parcels(&mut bytes, &parcels[..size]);
    scratch.append(part + 1, &bytes[..used])?;
    Ok(size)
}

/// How many of the first parcels belong to this part, as far as one call takes them.
fn run_length(parcels: &[Parcel], part: u32) -> usize
    requires some { 0 < length parcels.now }
    requires first { (none : Parcel) → (slice_index_or parcels.now 0 none).part ≡ part }
    ensures some { 0 < result }
    ensures run { All (λ p. p.part ≡ part) (take result parcels.now) }
    ensures most { result ≤ 64 }
    ensures within { result ≤ length parcels.now }
{
    let most = parcels.len().min(RUN_PARCELS);
    parcels[..most]
        .iter()
        .position(|parcel| parcel.part != part)
        .unwrap_or(most)
}
