//! What a store's file says of itself, before its words are read.

ghost use Rattle.std.specs.Prelude.{◌≡◌, ℕ, ◌+◌, ◌-◌, ◌*◌, ◌^◌, ◌<◌, ◌≤◌, List, length, take, drop, Some, None, IfSome, IfNone, IfOk, OnOk, OnErr, IsSome};
ghost use Rattle.svo_base.specs.GridShape.{IsGrid};
ghost use Rattle.dev_traits.specs.Faults.{HasCause};
ghost use Rattle.dev_traits.specs.Files.{file_named, current_bytes, HasBytes, ReadsBytes, IsFileLength};
ghost use Rattle.std.specs.Option.{ForSome};
ghost use Rattle.node_file.specs.Loading.{IsFrameOf, AreNoFrame, FindsFrame, FailsOnlyByFault, OpensFile};

use crate::framing::{header_parts, trailer_parts};
use crate::records::Totals;
use dev_traits::{Failed, NodeStore};
use svo_base::Grid;
use thiserror::Error;

/// Why a file cannot be read as a node file.
#[derive(Clone, Copy, Debug, Drop, Error, PartialEq, Eq)]
pub enum LoadFault {
    /// No file has the name.
    #[error("no file")]
    NoFile,
    /// The file is not framed as a node file is: its length, its header or its trailer is another.
    #[error("not a node file")]
    NotNodes,
    /// The store refused a call.
    #[error("failed")]
    Failed,
}

impl From<Failed> for LoadFault {
    ghost use Rattle.node_file.specs.declared.loading.LoadFault.TheVariants.{Failed};

    ghost from_gives = { λ _ e. e ≡ Failed };

    fn from(_fault: Failed) -> LoadFault {
        LoadFault::Failed
    }
}

/// How many bytes a file has beside its words.
const FRAME_SIZE: u64 = 80;

/// How many bytes stand behind the words.
const TRAILER_SIZE: u64 = 32;

/// How many bytes a word has.
const WORD_SIZE: u64 = 8;

/// What the bytes before and behind a file's words say.
#[derive(Debug, Drop)]
pub struct Frame {
    pub format: u32,
    pub grid: Grid,
    pub totals: Totals,
}

impl Frame {
    /// Makes the named file the store's current one, and reads all of it but its words.
    ///
    /// # Errors
    ///
    /// - `NoFile`: no file has the name.
    /// - `NotNodes`: one has it, and it is not framed. Framed is a file of `80 + 8 * n` bytes, with n at
    ///   least 1, whose first 48 are the header of format 1 or 2 with a grid within its limits, and
    ///   whose last 32 are the trailer of the same format, with n as its number of words.
    /// - `Failed`: the store refused a call.
    pub fn read<N: NodeStore>(store: &mut N, name: &str) -> Result<Frame, LoadFault>
        ensures found { IfSome (N.files store.old) (λ files. FindsFrame (file_named files name.now) result) }
        ensures current { IfOk result (λ _. N.current store.new ≡ Some name.now) }
        ensures long { IfOk result (λ frame. ForSome (current_bytes (N.files store.new) (N.current store.new)) (λ bytes. 80 + 8 * frame.totals.records ≤ length bytes)) }
        ensures limits { IfOk result (λ frame. IsGrid frame.grid) }
        ensures format { IfOk result (λ frame. (1 ≤ frame.format) × (frame.format ≤ 2)) }
        ensures some { IfOk result (λ frame. 1 ≤ frame.totals.records) }
        ensures few { IfOk result (λ frame. 80 + 8 * frame.totals.records < 2 ^ 64) }
        ensures files { N.files store.new ≡ N.files store.old }
        ensures cause { FailsOnlyByFault (N.faults store.old) (N.faults store.new) result }
    {
        let length = open(store, name)?;
        let Some(records) = records_in(length) else {
            return Err(LoadFault::NotNodes);
        };
        let header = read_piece::<48, N>(store, 0)?;
        let trailer = read_piece::<32, N>(store, length - TRAILER_SIZE)?;
        match frame_from(&header, &trailer, records) {
            Some(frame) => Ok(frame),
            None => Err(LoadFault::NotNodes),
        }
    }
}

/// Makes the named file the store's current one, and answers its length.
fn open<N: NodeStore>(store: &mut N, name: &str) -> Result<u64, LoadFault>
    ensures found { IfSome (N.files store.old) (λ files. OpensFile (file_named files name.now) result) }
    ensures current { OnOk result (N.current store.new ≡ Some name.now) }
    ensures files { N.files store.new ≡ N.files store.old }
    ensures cause { FailsOnlyByFault (N.faults store.old) (N.faults store.new) result }
{
    if !store.holds(name)? {
        return Err(LoadFault::NoFile);
    }
    store.select(name)?;
    let length = store.length()?;
    Ok(length)
}

/// How many words a file of this length has, if one can have it.
fn records_in(length: u64) -> Option<u64>
    ensures found { IfSome result (λ records. (1 ≤ records) × (length ≡ 80 + 8 * records)) }
    ensures missing { IfNone result ((records : ℕ) → 1 ≤ records → length ≡ 80 + 8 * records → ⊥) }
{
    if length <= FRAME_SIZE || (length - FRAME_SIZE) % WORD_SIZE != 0 {
        return None;
    }
    Some((length - FRAME_SIZE) / WORD_SIZE)
}

/// Reads a piece of the current file.
fn read_piece<const SIZE: usize, N: NodeStore>(store: &mut N, at: u64) -> Result<[u8; SIZE], Failed>
    requires file { IsSome (N.current store.old) }
    requires piece { HasBytes (current_bytes (N.files store.old) (N.current store.old)) at SIZE }
    ensures bytes { IfOk result (λ piece. IfSome (current_bytes (N.files store.old) (N.current store.old)) (λ bytes. piece ≡ take SIZE (drop at bytes))) }
    ensures files { N.files store.new ≡ N.files store.old }
    ensures current { N.current store.new ≡ N.current store.old }
    ensures cause { HasCause (N.faults store.old) (N.faults store.new) result }
{
    let mut piece = [0; SIZE];
    store.read_at(at, &mut piece)?;
    Ok(piece)
}

/// What a header and a trailer say of a file with so many words, where they are those of one.
fn frame_from(header: &[u8; 48], trailer: &[u8; 32], records: u64) -> Option<Frame>
    ensures found { IfSome result (λ frame. IsFrameOf frame records header.now trailer.now) }
    ensures missing { IfNone result (AreNoFrame records header.now trailer.now) }
{
    let (format, grid) = header_parts(header)?;
    let (end, totals) = trailer_parts(trailer)?;
    if end != format || totals.records != records {
        return None;
    }
    Some(Frame {
        format,
        grid,
        totals,
    })
}
