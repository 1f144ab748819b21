//! The frames of two files of a store.

ghost use Rattle.std.specs.Prelude.{◌≡◌, IfOk, IfSome};
ghost use Rattle.dev_traits.specs.Files.{file_named};
ghost use Rattle.node_file.specs.Loading.{FindsFrame, FailsOnlyByFault};
ghost use Rattle.node_merge.specs.PairFrames.{first_fault, second_fault, FindsFrames, IsFrameIn, FailsOnlyByRise};

use dev_traits::NodeStore;
use node_file::{Frame, LoadFault};
use thiserror::Error;

/// Why two files cannot be read as a pair of node files.
#[derive(Clone, Copy, Debug, Drop, Error, PartialEq, Eq)]
pub enum PairFault {
    /// No file has the first name.
    #[error("no first file")]
    NoFirst,
    /// The first file is not framed as a node file is.
    #[error("the first is not a node file")]
    First,
    /// No file has the second name.
    #[error("no second file")]
    NoSecond,
    /// The second file is not framed as a node file is.
    #[error("the second is not a node file")]
    Second,
    /// The store refused a call.
    #[error("failed")]
    Failed,
}

/// What the bytes around the words of two files say.
#[derive(Debug, Drop)]
pub struct Frames {
    pub first: Frame,
    pub second: Frame,
}

/// Reads all of two files but their words, the first file first.
///
/// # Errors
///
/// - `NoFirst`, `First`: no file has the first name, or that file is not framed.
/// - `NoSecond`, `Second`: the first is framed, and no file has the second name, or that file is not
///   framed.
/// - `Failed`: the store refused a call.
pub fn read_frames<N: NodeStore>(
    store: &mut N,
    first: &str,
    second: &str,
) -> Result<Frames, PairFault>
    ensures found { IfSome (N.files store.old) (λ files. FindsFrames (file_named files first.now) (file_named files second.now) result) }
    ensures first { IfOk result (λ frames. IsFrameIn (N.files store.new) first.now frames.first) }
    ensures second { IfOk result (λ frames. IsFrameIn (N.files store.new) second.now frames.second) }
    ensures files { N.files store.new ≡ N.files store.old }
    ensures cause { FailsOnlyByRise (N.faults store.old) (N.faults store.new) result }
{
    let first = match framed(store, first) {
        Err(fault) => return Err(first_fault(fault)),
        Ok(frame) => frame,
    };
    match framed(store, second) {
        Err(fault) => Err(second_fault(fault)),
        Ok(second) => Ok(Frames { first, second }),
    }
}

/// The frame of a file, which is one of the store.
fn framed<N: NodeStore>(store: &mut N, name: &str) -> Result<Frame, LoadFault>
    ensures found { IfSome (N.files store.old) (λ files. FindsFrame (file_named files name.now) result) }
    ensures there { IfOk result (λ frame. IsFrameIn (N.files store.new) name.now frame) }
    ensures files { N.files store.new ≡ N.files store.old }
    ensures cause { FailsOnlyByFault (N.faults store.old) (N.faults store.new) result }
{
    let frame = Frame::read(store, name)?;
    Ok(frame)
}

/// The fault of a first file.
fn first_fault(fault: LoadFault) -> PairFault
    ensures { result ≡ first_fault fault }
{
    match fault {
        LoadFault::NoFile => PairFault::NoFirst,
        LoadFault::NotNodes => PairFault::First,
        LoadFault::Failed => PairFault::Failed,
    }
}

/// The fault of a second file.
fn second_fault(fault: LoadFault) -> PairFault
    ensures { result ≡ second_fault fault }
{
    match fault {
        LoadFault::NoFile => PairFault::NoSecond,
        LoadFault::NotNodes => PairFault::Second,
        LoadFault::Failed => PairFault::Failed,
    }
}
