//! A run of the program over devices in memory, and what it left.

ghost use Rattle.std.specs.Prelude.{◌≡◌, None};

use crate::entries::Device;
use crate::faults::RowFault;
use crate::setups::{Setup, StoreFile};
use crate::watching::WatchedScratch;
use dev_traits::{ByteSource, MemSink, MemSource, MemStore, NodeStore};
use std::alloc::Global;
use svo_base::Words;
use svo_top::run;

/// What a run left.
#[derive(Drop)]
pub struct Outcome {
    pub status: u8,
    pub out: MemSink,
    pub err: MemSink,
    pub scratch: WatchedScratch,
    /// How many bytes of the input were not read.
    pub left: u64,
    read: Count,
    nodes: Count,
}

/// How many calls a device had, and how many of them it refused.
#[derive(Clone, Copy)]
struct Count {
    calls: u64,
    refused: u64,
}

impl Outcome {
    fn count(&self, device: Device) -> Count {
        match device {
            Device::Read => self.read,
            Device::Out => Count {
                calls: self.out.calls(),
                refused: self.out.fault_count(),
            },
            Device::Err => Count {
                calls: self.err.calls(),
                refused: self.err.fault_count(),
            },
            Device::Scratch => Count {
                calls: self.scratch.calls(),
                refused: self.scratch.fault_count(),
            },
            Device::Nodes => self.nodes,
        }
    }

    /// How many calls a device had.
    pub fn calls(&self, device: Device) -> u64 {
        self.count(device).calls
    }

    /// Whether a device refused a call.
    pub fn refused(&self, device: Device) -> bool {
        self.count(device).refused > 0
    }
}

/// A store with these files. It is asked for each name before the file is added, so the calls of the
/// run are counted behind these.
fn store_of(alloc: Global, files: &[StoreFile], fails: &[u64]) -> Result<MemStore, RowFault> {
    let mut store = MemStore::new(alloc, fails)?;
    for file in files {
        let name = file.name.as_str();
        match store.holds(name) {
            Ok(false) => store.add(name, file.bytes.as_slice())?,
            _ => {
                let cause = format!(in alloc; "two files are named {name}")?;
                return Err(RowFault::Malformed(cause));
            }
        }
    }
    Ok(store)
}

/// How many bytes a source still has. It is read to its end in at most so many calls.
fn left_in(input: &mut MemSource, calls: u64) -> u64 {
    let mut block = [0; 256];
    let mut left: u64 = 0;
    for _ in 0..calls {
        match input.read(&mut block) {
            Ok(0) => break,
            Ok(count) => left = left.saturating_add(count as u64),
            Err(_) => {}
        }
    }
    left
}

/// The room of the output for errors, above the length of any line.
const ERR_ROOM: usize = 128;

/// Runs the program.
pub fn run_once(alloc: Global, setup: &Setup) -> Result<Outcome, RowFault> {
    let words = setup.command(alloc)?;
    let asked = setup.files.len() as u64;
    let read_fails = setup.refused_calls(alloc, Device::Read, 0)?;
    let out_fails = setup.refusals(alloc, Device::Out)?;
    let err_fails = setup.refusals(alloc, Device::Err)?;
    let scratch_fails = setup.refusals(alloc, Device::Scratch)?;
    let node_fails = setup.refused_calls(alloc, Device::Nodes, asked)?;
    let mut input = MemSource::new(
        alloc,
        setup.input.as_slice(),
        setup.piece.max(1),
        read_fails.as_slice(),
    )?;
    let mut out = MemSink::new(alloc, setup.room, out_fails.as_slice())?;
    let mut err = MemSink::new(alloc, ERR_ROOM, err_fails.as_slice())?;
    let mut scratch = WatchedScratch::new(
        alloc,
        setup.streams,
        setup.stream_room,
        scratch_fails.as_slice(),
    )?;
    let mut nodes = store_of(alloc, setup.files.as_slice(), node_fails.as_slice())?;
    let status = code_of_run(
        alloc,
        &words,
        &mut input,
        &mut out,
        &mut err,
        &mut scratch,
        &mut nodes,
    );
    let read = Count {
        calls: input.calls(),
        refused: input.fault_count(),
    };
    let nodes = Count {
        calls: nodes.calls().saturating_sub(asked),
        refused: nodes.fault_count(),
    };
    let most = (setup.input.len() as u64).saturating_add(read_fails.len() as u64);
    Ok(Outcome {
        status,
        out,
        err,
        scratch,
        left: left_in(&mut input, most.saturating_add(1)),
        read,
        nodes,
    })
}

/// The exit status of a run. What else the run promises is not asked here, where rows are compared.
fn code_of_run(
    alloc: Global,
    words: &Words,
    input: &mut MemSource,
    out: &mut MemSink,
    err: &mut MemSink,
    scratch: &mut WatchedScratch,
    nodes: &mut MemStore,
) -> u8
    requires { scratch.old.asked ≡ None }
{
    run(alloc, words, input, out, err, scratch, nodes).code()
}
