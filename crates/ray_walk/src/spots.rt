//! Nodes that a ray is in, and what becomes of their children.

ghost use Rattle.std.specs.Prelude.{◌≡◌, ◌<◌, ◌^◌, IfOk, cond};
ghost use Rattle.std.specs.Result.{IfErr};
ghost use Rattle.octree_specs.specs.Walking.{child_number as number_of};
ghost use Rattle.ray_walk.specs.Stays.{IsFlight};
ghost use Rattle.ray_walk.specs.Steps.{IsRefusal, IsSpot, IsStep, has_child as has_bit, improves_on, is_sooner_than};

use crate::flights::{Flight, Stay};
use crate::hits::Candidate;
use node_check::WalkFault;

/// A node above the cells: the number of its word, how many levels it stands above the cells, its
/// Morton code, and its planes.
#[derive(Clone, Copy)]
pub struct Spot {
    pub number: u64,
    pub height: u32,
    pub code: u64,
    pub stay: Stay,
}

/// What becomes of a child.
#[derive(Clone, Copy)]
pub enum Step {
    /// It is empty, or nothing under it is hit before the best hit so far.
    Skip,
    /// It is a cell, and the best hit so far.
    Take(Candidate),
    /// It is to be walked.
    Enter(Spot),
}

/// What becomes of the child that is visited as the k-th. The word is the spot's own. It is refused
/// where it places the child at its own number or behind.
pub fn next(
    flight: &Flight,
    spot: &Spot,
    word: u64,
    k: u64,
    known: Option<Candidate>,
) -> Result<Step, WalkFault>
    requires flight { IsFlight flight.now }
    requires spot { IsSpot flight.now spot.now }
    requires k { k < 8 }
    ensures step { IfOk result (IsStep flight.now spot.now word k known) }
    ensures fault { IfErr result (IsRefusal spot.now word) }
{
    let place = flight.place(k);
    if !has_child(word, place) {
        return Ok(Step::Skip);
    }
    let stay = flight.child(&spot.stay, k);
    let Some(ticks) = flight.entry(&stay) else {
        return Ok(Step::Skip);
    };
    if is_sooner(known, ticks) {
        return Ok(Step::Skip);
    }
    let code = 8 * spot.code + place;
    if spot.height == 1 {
        return Ok(taken(Candidate { ticks, code }, known));
    }
    let number = child_number(word, place);
    if number >= spot.number {
        return Err(WalkFault::Refused {
            number: spot.number,
            word,
        });
    }
    Ok(Step::Enter(Spot {
        number,
        height: spot.height - 1,
        code,
        stay,
    }))
}

/// Whether a word has a bit for the child at a place.
fn has_child(word: u64, place: u64) -> bool
    requires { place < 8 }
    ensures { result ≡ has_bit word place }
{
    word >> place & 1 == 1
}

/// The number of the word of the child at a place.
fn child_number(word: u64, place: u64) -> u64
    requires { place < 8 }
    ensures { result ≡ number_of word place }
{
    (word >> 8) + u64::from((word & ((1 << place) - 1)).count_ones())
}

/// Whether the best hit that is known is sooner than so many ticks.
fn is_sooner(known: Option<Candidate>, ticks: u128) -> bool
    ensures { result ≡ is_sooner_than known ticks }
{
    match known {
        Some(best) => best.ticks < ticks,
        None => false,
    }
}

/// Whether a cell that is hit not later than the best hit that is known comes before it.
fn improves(cell: &Candidate, known: Option<Candidate>) -> bool
    ensures { result ≡ improves_on cell.now known }
{
    match known {
        Some(best) => cell.ticks < best.ticks || cell.code < best.code,
        None => true,
    }
}

/// A cell that is hit not later than the best hit that is known.
fn taken(cell: Candidate, known: Option<Candidate>) -> Step
    ensures { result ≡ cond (improves_on cell known) (Step.Take cell) Step.Skip }
{
    if improves(&cell, known) {
        Step::Take(cell)
    } else {
        Step::Skip
    }
}
