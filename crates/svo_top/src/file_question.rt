//! Questions about a node file of the store.

ghost use Rattle.std.specs.Prelude.{◌≡◌, ◌<◌, ◌≤◌};
ghost use Rattle.dev_traits.specs.Change.{change_of};
ghost use Rattle.svo_top.specs.FileQuestion.{Asks, keeps_blocks};
ghost use Rattle.svo_top.specs.Loaded.{status_of_load};

use crate::open_file::{admit, answer};
use crate::outcome::{Device, NodeRefusal, Status};
use block_cache::{BlockCache, Blocks};
use dev_traits::{ByteSink, ByteSource, NodeStore};
use node_file::{Frame, LoadFault, Nodes};
use ray_answers::QueryKind;
use slice_view::{Axis, Camera};
use std::alloc::Global;
use std::marker::Brand;
use std::sync::ledger::{Blank, Ledger};
use svo_base::Steps;
use svo_words::Text;

/// A question about a node file.
#[derive(Clone, Copy, Debug, PartialEq, Eq)]
pub enum Question {
    /// Whether it is one, and of how many words and cells.
    Check,
    /// Whether the cell of a code is filled.
    Has(i64),
    /// Which cells are filled.
    Cells,
    /// What the file of format 2 of its cells is.
    Lift,
    /// Which of its cells each ray of the input hits first, or is nearest to each point of it.
    Lines(QueryKind),
    /// The picture of its layer across an axis at a place.
    Slice(Axis, i64),
    /// The picture that a camera takes of its cells.
    View(Camera),
    /// What the file of its cells is with so many levels less.
    Coarse(i64),
}

impl Question {
    /// Whether the words of the file are read by blocks that are kept.
    fn keeps_blocks(&self) -> bool
        ensures { result ≡ keeps_blocks self.now }
    {
        match self {
            Question::Cells | Question::Lines(_) | Question::Slice(..) | Question::View(_) => {
                true
            }
            Question::Check | Question::Has(_) | Question::Lift | Question::Coarse(_) => false,
        }
    }
}

/// So many blocks of a file are kept, from 1 to 65536, in memory of this allocator.
#[derive(Clone, Copy)]
pub struct Keeping {
    pub alloc: Global,
    pub blocks: usize,
    pub ghost range: { (1 ≤ blocks) × (blocks ≤ 65536) },
}

/// Answers a question about the file of a name. The file is loaded and checked whole before anything
/// else, and then the ranges are tested that need its grid. Only then a question that reads words by
/// kept blocks takes the memory for their table: `Memory`, where there is none.
pub fn ask<I: ByteSource, O: ByteSink, N: NodeStore>(
    keeping: &Keeping,
    name: &Text,
    question: &Question,
    input: &mut I,
    out: &mut O,
    store: &mut N,
) -> Status
    ensures { Asks question.now name.now
        (change_of I.rest I.faults input.old input.new)
        (change_of O.written O.faults out.old out.new)
        (change_of N.files N.faults store.old store.new) result }
{
    let blank = Blank::new(1);
    ask_counted::<I, O, N, Brand>(keeping, name, question, input, out, store, blank)
}

/// The same, with the counter of reads in the ledger that the blank is for.
fn ask_counted<I: ByteSource, O: ByteSink, N: NodeStore, L: Ledger>(
    keeping: &Keeping,
    name: &Text,
    question: &Question,
    input: &mut I,
    out: &mut O,
    store: &mut N,
    blank: Blank,
) -> Status
    requires name { blank.name ≡ L.name }
    requires parts { blank.parts ≡ L.parts }
    requires one { 0 < blank.parts }
    ensures { Asks question.now name.now
        (change_of I.rest I.faults input.old input.new)
        (change_of O.written O.faults out.old out.new)
        (change_of N.files N.faults store.old store.new) result }
{
    let mut reads = Steps::<L>::new(blank);
    let frame = match Frame::read(store, name.as_str()) {
        Err(fault) => return status_of_load(fault),
        Ok(frame) => frame,
    };
    let mut nodes = Nodes::new(store, frame);
    if let Err(status) = admit(question, &mut nodes, &mut reads) {
        return status;
    }
    if !question.keeps_blocks() {
        return answer(keeping.alloc, question, input, out, &mut nodes, &mut reads);
    }
    let mut cache = match BlockCache::make(keeping.alloc, keeping.blocks) {
        Err(_) => return Status::Memory,
        Ok(cache) => cache,
    };
    let mut blocks = Blocks::new(nodes, &mut cache);
    answer(keeping.alloc, question, input, out, &mut blocks, &mut reads)
}

/// How a run ends that cannot load a file.
fn status_of_load(fault: LoadFault) -> Status
    ensures { result ≡ status_of_load fault }
{
    match fault {
        LoadFault::NoFile => Status::Refused(NodeRefusal::NoFile),
        LoadFault::NotNodes => Status::Refused(NodeRefusal::NotNodes),
        LoadFault::Failed => Status::Device(Device::Nodes),
    }
}
