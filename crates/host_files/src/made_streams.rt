//! Which streams have files of this run.

ghost use Rattle.std.specs.Prelude.{◌≡◌, true, false, replicate, set as put_at};
ghost use Rattle.host_files.specs.MadeStreams.{is_made};

use std::marker::Model;

/// How many streams are kept apart: the vertices' and those of 4096 parts, which is as many as a
/// build has.
pub const KEPT_APART: usize = 4097;

/// The streams, numbered from 0, whose files this run made. Those above the ones that are kept apart
/// all count as made.
#[derive(Drop)]
pub struct MadeStreams {
    made: [bool; KEPT_APART],
}

impl Model for MadeStreams {
    ghost use Rattle.std.specs.Prelude.{List, Bool};

    ghost Value = { List Bool };

    ghost view = { λ s. s.made };
}

impl MadeStreams {
    /// Of the streams that are kept apart none was made.
    pub fn none() -> MadeStreams
        ensures { result ≡ replicate 4097 false }
    {
        MadeStreams {
            made: [false; KEPT_APART],
        }
    }

    /// Whether the stream's file was made.
    pub fn holds(&self, stream: u32) -> bool
        ensures { result ≡ is_made self.now stream }
    {
        self.made.get(stream as usize).copied().unwrap_or(true)
    }

    /// The stream's file was made; of other streams nothing changes.
    pub fn insert(&mut self, stream: u32)
        ensures { self.new ≡ put_at self.old stream true }
    {
        let at = stream as usize;
        if at < self.made.len() {
            self.made[at] = true;
        }
    }
}
