//! The standard streams as devices.

ghost use Rattle.std.specs.Prelude.{◌≡◌, None};

use crate::faults::answered;
use crate::transfers::write_through;
use dev_traits::{ByteSink, ByteSource, Failed};
use std::io::{Read, Write};

/// The standard input, or any stream to read from. A read is one call of the host.
#[derive(Drop)]
pub struct HostInput<R> {
    stream: R,
    faults: u64,
}

impl<R> HostInput<R> {
    /// The stream as a source that has counted no fault.
    pub fn new(stream: R) -> HostInput<R>
        ensures { result.faults ≡ 0 }
    {
        HostInput { stream, faults: 0 }
    }

    /// How many faults of the host there were; it stays at 2^64 - 1.
    pub fn fault_count(&self) -> u64
        ensures { result ≡ self.now.faults }
    {
        self.faults
    }
}

impl<R: Read> ByteSource for HostInput<R> {
    ghost rest = { λ _. None };

    ghost faults = { λ s. s.faults };

    fn read(&mut self, into: &mut [u8]) -> Result<usize, Failed> {
        let outcome = self.stream.read(into);
        answered(&mut self.faults, outcome)
    }
}

/// The standard output, or any stream to write to. Each put is flushed, and a flush that fails is a
/// fault.
#[derive(Drop)]
pub struct HostOutput<W> {
    stream: W,
    faults: u64,
}

impl<W> HostOutput<W> {
    /// The stream as a sink that has counted no fault.
    pub fn new(stream: W) -> HostOutput<W>
        ensures { result.faults ≡ 0 }
    {
        HostOutput { stream, faults: 0 }
    }

    /// How many faults of the host there were; it stays at 2^64 - 1.
    pub fn fault_count(&self) -> u64
        ensures { result ≡ self.now.faults }
    {
        self.faults
    }
}

impl<W: Write> ByteSink for HostOutput<W> {
    ghost written = { λ _. None };

    ghost faults = { λ s. s.faults };

    fn put(&mut self, piece: &[u8]) -> Result<(), Failed> {
        let outcome = write_through(&mut self.stream, piece);
        answered(&mut self.faults, outcome)
    }
}

/// The standard stream of messages. Each put is flushed, and a flush that fails is a fault.
#[derive(Drop)]
pub struct HostErrors<W> {
    stream: W,
    faults: u64,
}

impl<W> HostErrors<W> {
    /// The stream as a sink that has counted no fault.
    pub fn new(stream: W) -> HostErrors<W>
        ensures { result.faults ≡ 0 }
    {
        HostErrors { stream, faults: 0 }
    }

    /// How many faults of the host there were; it stays at 2^64 - 1.
    pub fn fault_count(&self) -> u64
        ensures { result ≡ self.now.faults }
    {
        self.faults
    }
}

impl<W: Write> ByteSink for HostErrors<W> {
    ghost written = { λ _. None };

    ghost faults = { λ s. s.faults };

    fn put(&mut self, piece: &[u8]) -> Result<(), Failed> {
        let outcome = write_through(&mut self.stream, piece);
        answered(&mut self.faults, outcome)
    }
}
