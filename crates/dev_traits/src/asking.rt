//! What a scratch was asked to start.

ghost use Rattle.std.specs.Prelude.{◌≡◌};

use arrayvec::ArrayVec;
use std::marker::Model;

/// How many bytes of a place are kept: one more than the longest place that a folder may have.
const KEPT: usize = 201;

/// How many streams a scratch was asked to start, and the first 201 bytes of the place.
#[derive(Drop)]
pub struct Asking {
    streams: u32,
    place: ArrayVec<u8, KEPT>,
}

impl Model for Asking {
    ghost use Rattle.dev_traits.specs.Streams.{Asked};

    ghost Value = { Asked };

    ghost view = { λ a. record { streams = a.streams; place = a.place.items } };
}

impl Asking {
    ghost use Rattle.dev_traits.specs.Streams.{asked_of};

    /// The asking of a call of `start`.
    pub fn new(place: &str, streams: u32) -> Asking
        ensures { result ≡ asked_of place.now streams }
    {
        let bytes = place.as_bytes();
        let mut kept = ArrayVec::new();
        kept.try_extend_from_slice(&bytes[..bytes.len().min(KEPT)])
            .unwrap();
        Asking {
            streams,
            place: kept,
        }
    }
}
