//! What a run is given: its words, and how its devices behave.

use crate::entries::{CommandLine, Device, Refusal};
use dev_traits::PartFail;
use std::alloc::{AllocError, Global};
use svo_base::Words;

/// The name by which a row's input is spoken of, beside those of its files.
pub const INPUT: &str = "input";

/// A file of a store.
#[derive(Drop)]
pub struct StoreFile {
    pub name: String,
    pub bytes: Vec<u8>,
}

/// What a run is given.
#[derive(Drop)]
pub struct Setup {
    pub words: Vec<String>,
    pub input: Vec<u8>,
    pub piece: usize,
    pub room: usize,
    pub streams: u32,
    pub stream_room: usize,
    pub refuses: Vec<Refusal>,
    pub files: Vec<StoreFile>,
}

impl Setup {
    /// The input, or the file of this name.
    pub fn given(&self, name: &str) -> Option<&[u8]> {
        if name == INPUT {
            return Some(self.input.as_slice());
        }
        let file = self.files.iter().find(|file| file.name.as_str() == name)?;
        Some(file.bytes.as_slice())
    }

    /// Puts other bytes in the place of the input, or of the file of this name.
    pub fn put(&mut self, name: &str, bytes: Vec<u8>) {
        if name == INPUT {
            self.input = bytes;
            return;
        }
        for file in self.files.iter_mut() {
            if file.name.as_str() == name {
                file.bytes = bytes;
                return;
            }
        }
    }

    /// The words as a run takes them.
    pub fn command(&self, alloc: Global) -> Result<Words, AllocError> {
        let mut words = Words::new(alloc);
        for word in self.words.as_slice() {
            words.push(word.as_str())?;
        }
        Ok(words)
    }

    /// The calls of a device that are refused, each with the bytes that it takes first.
    pub fn refusals(&self, alloc: Global, device: Device) -> Result<Vec<PartFail>, AllocError> {
        let mut fails = Vec::new(alloc);
        for refusal in self.refuses.as_slice() {
            if refusal.device == device {
                fails.push(PartFail {
                    call: refusal.call,
                    taken: refusal.taken,
                })?;
            }
        }
        Ok(fails)
    }

    /// The calls of a device that are refused, each `before` later.
    pub fn refused_calls(
        &self,
        alloc: Global,
        device: Device,
        before: u64,
    ) -> Result<Vec<u64>, AllocError> {
        let mut calls = Vec::new(alloc);
        for refusal in self.refuses.as_slice() {
            if refusal.device == device {
                calls.push(refusal.call.saturating_add(before))?;
            }
        }
        Ok(calls)
    }
}

/// The words of a command line.
pub fn words_of(alloc: Global, line: &CommandLine) -> Result<Vec<String>, AllocError> {
    match line {
        CommandLine::Line(line) => split_words(alloc, line.as_str()),
        CommandLine::Words(words) => copied(alloc, words.as_slice()),
        CommandLine::Many(many) => {
            let mut words = copied(alloc, many.words.as_slice())?;
            for _ in 0..many.times {
                words.push(String::from_str(alloc, many.more.as_str())?)?;
            }
            Ok(words)
        }
    }
}

/// The words between the spaces of a line.
fn split_words(alloc: Global, line: &str) -> Result<Vec<String>, AllocError> {
    let mut words = Vec::new(alloc);
    for word in line.split(' ') {
        if !word.is_empty() {
            words.push(String::from_str(alloc, word)?)?;
        }
    }
    Ok(words)
}

/// A copy of a list of words.
fn copied(alloc: Global, list: &[String]) -> Result<Vec<String>, AllocError> {
    let mut words = Vec::new(alloc);
    for word in list {
        words.push(String::from_str(alloc, word.as_str())?)?;
    }
    Ok(words)
}
