//! Whole pieces, written and read by as many calls as the host needs.

ghost use Rattle.std.specs.Prelude.{◌≡◌, length, OnOk};
ghost use Rattle.std.specs.Io.KnownBytes.{Appends, Consumes};

use std::io;
use std::io::{ErrorKind, Read, Write};

/// Writes the whole piece. A write that takes nothing of what is left is an error.
pub fn write_whole<W: Write>(file: &mut W, piece: &[u8]) -> io::Result<()>
    ensures { OnOk result (Appends (W.contents file.old) (W.contents file.new) piece.now) }
{
    let mut done = 0;
    while done < piece.len() {
        match file.write(&piece[done..])? {
            0 => return Err(io::Error::from(ErrorKind::WriteZero)),
            count => done += count,
        }
    }
    Ok(())
}

/// Writes the whole piece, and hands on at once what the writer holds back.
#[tactic(auto, using(crate::proofs::MovedBytes::appends_kept))]
pub fn write_through<W: Write>(stream: &mut W, piece: &[u8]) -> io::Result<()>
    ensures { OnOk result (Appends (W.contents stream.old) (W.contents stream.new) piece.now) }
{
    write_whole(stream, piece)?;
    stream.flush()?;
    Ok(())
}

/// Fills `into`. An end before that is an error.
pub fn read_whole<F: Read>(file: &mut F, into: &mut [u8]) -> io::Result<()>
    ensures size { length into.new ≡ length into.old }
    ensures bytes { OnOk result (Consumes (F.remaining file.old) (F.remaining file.new) into.new) }
{
    let mut done = 0;
    while done < into.len() {
        match file.read(&mut into[done..])? {
            0 => return Err(io::Error::from(ErrorKind::UnexpectedEof)),
            count => done += count,
        }
    }
    Ok(())
}
