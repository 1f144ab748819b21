//! Single tokens of the body.

ghost use Rattle.std.specs.Prelude.{◌≡◌, ◌≤◌, ◌<◌, ◌^◌, None, Some, ℕ, List, [], IfOk, unsigned_abs};
ghost use Rattle.ply_text.specs.Reading.{reading};
ghost use Rattle.ply_text.specs.Calls.{SameLent};
ghost use Rattle.ply_text.specs.Fixed.{fixed_of};
ghost use Rattle.ply_text.specs.Wholes.{whole_of};
ghost use Rattle.ply_reader.specs.Cursors.{taken, ply_fault};
ghost use Rattle.ply_reader.specs.TokenValues.{unread, whole_in, within_bounds, coordinate, placed, number_kind};
ghost use Rattle.ply_reader.specs.Runs.{Runs};
ghost use Rattle.ply_reader.specs.PlyMeaning.{text_ended};

use crate::fault::{PlyFault, PlyKind};
use crate::scales::Scale;
use dev_traits::ByteSource;
use ply_text::{NumberFault, TextFault, Tokens, read_fixed, read_whole};

/// The most bytes of a text.
const MAX_TEXT: u64 = 1 << 62;

/// Passes a token unread.
pub(crate) fn pass_token<I: ByteSource>(tokens: &mut Tokens<'_, I>) -> Result<(), PlyFault>
    requires free { tokens.old.stopped ≡ None }
    ensures same { SameLent tokens.old tokens.new }
    ensures runs { Runs (taken unread) (reading tokens.old) (reading tokens.new) result }
{
    match tokens.next_token() {
        Ok(Some(_)) => Ok(()),
        Ok(None) => Err(truncated(tokens.place())),
        Err(fault) => Err(of_text(fault)),
    }
}

/// Takes a whole number from `least` on and below `bound`; any other token is refused with this kind.
pub(crate) fn take_whole<I: ByteSource>(
    tokens: &mut Tokens<'_, I>,
    kind: PlyKind,
    least: u64,
    bound: u64,
) -> Result<u64, PlyFault>
    requires free { tokens.old.stopped ≡ None }
    ensures same { SameLent tokens.old tokens.new }
    ensures runs { Runs (taken (whole_in kind least bound)) (reading tokens.old) (reading tokens.new) result }
    ensures bounds { IfOk result (λ n. (least ≤ n) × (n < bound)) }
{
    match tokens.next_token() {
        Ok(Some(token)) => {
            within_bounds(
                kind,
                least,
                bound,
                token.place,
                read_whole(token.bytes, u64::MAX),
            )
        }
        Ok(None) => Err(truncated(tokens.place())),
        Err(fault) => Err(of_text(fault)),
    }
}

/// Takes a coordinate.
pub(crate) fn take_coordinate<I: ByteSource>(
    tokens: &mut Tokens<'_, I>,
    scale: &Scale,
) -> Result<i32, PlyFault>
    requires free { tokens.old.stopped ≡ None }
    requires scale { scale.now.decimals ≤ 9 }
    ensures same { SameLent tokens.old tokens.new }
    ensures runs { Runs (taken (coordinate scale.now)) (reading tokens.old) (reading tokens.new) result }
    ensures bounds { IfOk result (λ n. unsigned_abs n ≤ 2 ^ 30) }
{
    match tokens.next_token() {
        Ok(Some(token)) => {
            placed(
                token.place,
                read_fixed(token.bytes, scale.decimals, scale.cut),
            )
        }
        Ok(None) => Err(truncated(tokens.place())),
        Err(fault) => Err(of_text(fault)),
    }
}

/// Passes the white space at the end of the text, and gives the text's length.
pub(crate) fn take_end<I: ByteSource>(tokens: &mut Tokens<'_, I>) -> Result<u64, PlyFault>
    requires free { tokens.old.stopped ≡ None }
    ensures same { SameLent tokens.old tokens.new }
    ensures runs { Runs text_ended (reading tokens.old) (reading tokens.new) result }
    ensures ended { IfOk result (λ size. (size ≡ tokens.new.place) × ((reading tokens.new).ahead ≡ 0)) }
    ensures nothing { (text : List ℕ) → (reading tokens.old).left ≡ Some text → IfOk result (λ _. (reading tokens.new).left ≡ Some []) }
{
    match tokens.next_place() {
        Ok(None) => Ok(tokens.place()),
        Ok(Some(place)) => Err(PlyFault::Refused {
            kind: PlyKind::TrailingData,
            place,
        }),
        Err(fault) => Err(of_text(fault)),
    }
}

fn within_bounds(
    kind: PlyKind,
    least: u64,
    bound: u64,
    place: u64,
    found: Option<u64>,
) -> Result<u64, PlyFault>
    ensures value { result ≡ within_bounds kind least bound place found }
    ensures bounds { IfOk result (λ n. (least ≤ n) × (n < bound)) }
{
    match found {
        Some(n) if least <= n && n < bound => Ok(n),
        _ => Err(PlyFault::Refused { kind, place }),
    }
}

fn placed(place: u64, number: Result<i32, NumberFault>) -> Result<i32, PlyFault>
    requires { IfOk number (λ n. unsigned_abs n ≤ 2 ^ 30) }
    ensures value { result ≡ placed place number }
    ensures bounds { IfOk result (λ n. unsigned_abs n ≤ 2 ^ 30) }
{
    match number {
        Ok(n) => Ok(n),
        Err(fault) => Err(PlyFault::Refused {
            kind: number_kind(fault),
            place,
        }),
    }
}

fn number_kind(fault: NumberFault) -> PlyKind
    ensures { result ≡ number_kind fault }
{
    match fault {
        NumberFault::BadNumber => PlyKind::BadNumber,
        NumberFault::NotWhole => PlyKind::NotWhole,
        NumberFault::OutOfRange => PlyKind::OutOfRange,
    }
}

/// The refusal of a text that ends where a token or a header line has to follow.
pub(crate) fn truncated(place: u64) -> PlyFault
    ensures { result ≡ PlyFault.Refused PlyKind.Truncated place }
{
    PlyFault::Refused {
        kind: PlyKind::Truncated,
        place,
    }
}

/// What a fault of the text's lines and tokens is to a mesh.
pub(crate) fn of_text(fault: TextFault) -> PlyFault
    ensures { result ≡ ply_fault fault }
{
    match fault {
        TextFault::LineTooLong(place) => PlyFault::Refused {
            kind: PlyKind::LineTooLong,
            place,
        },
        TextFault::TokenTooLong(place) => PlyFault::Refused {
            kind: PlyKind::TokenTooLong,
            place,
        },
        TextFault::TooLong => PlyFault::Refused {
            kind: PlyKind::TooLong,
            place: MAX_TEXT,
        },
        TextFault::ReadFault => PlyFault::ReadFault,
    }
}
