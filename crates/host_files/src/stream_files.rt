//! The files of streams in a folder. None stays open between two calls, since there may be more
//! streams than a process may have open files.

ghost use Rattle.std.specs.Prelude.{◌≡◌, ◌++◌, ◌≤◌, ◌↔◌, length, decimal, codes, IfOk, IsOk};

use crate::transfers::{read_whole, write_whole};
use arrayvec::ArrayString;
use itoa::Buffer;
use std::fs::{File, OpenFile, OpenOptions};
use std::io::{ErrorKind, Seek, SeekFrom};
use std::ops::Range;
use std::rt::Files;
use std::{fs, io};

/// The longest place of a folder, in bytes.
pub const LONGEST_PLACE: usize = 200;

/// The name of a folder.
pub type Place = ArrayString<LONGEST_PLACE>;

/// The name of a file in it: the folder's name, a slash, and a number of up to ten digits.
pub type Path = ArrayString<211>;

/// The place as a name of its own; one of more than 200 bytes is an error.
pub fn kept_place(place: &str) -> io::Result<Place>
    ensures kept { IfOk result (λ kept. kept.bytes ≡ place.now) }
    ensures fits { IsOk result ↔ (length place.now ≤ 200) }
{
    match Place::from(place) {
        Ok(kept) => Ok(kept),
        Err(_) => Err(io::Error::from(ErrorKind::InvalidFilename)),
    }
}

/// The name of a stream's file.
pub fn path_of(place: &Place, stream: u32) -> Path
    ensures { result.bytes ≡ place.now.bytes ++ codes "/" ++ decimal stream }
{
    let mut path = Path::new();
    path.push_str(place.as_str());
    path.push_str("/");
    path.push_str(Buffer::new().format(stream));
    path
}

/// Sees that there is a folder, and makes it where nothing is; the folder above must be there.
pub fn make_folder<R: Files>(files: &R, place: &Place) -> io::Result<()> {
    match fs::metadata(files, place.as_str()) {
        Ok(found) if found.is_dir() => Ok(()),
        Ok(_) => Err(io::Error::from(ErrorKind::NotADirectory)),
        Err(error) if error.kind() == ErrorKind::NotFound => fs::create_dir(files, place.as_str()),
        Err(error) => Err(error),
    }
}

/// Makes an empty file for each of these streams; what an earlier file of the name held is gone.
pub fn make_streams<R: Files>(files: &R, place: &Place, streams: Range<u32>) -> io::Result<()> {
    for stream in streams {
        File::create(files, path_of(place, stream).as_str())?;
    }
    Ok(())
}

/// Makes a stream's file of this piece alone; what an earlier file of the name held is gone.
pub fn make_with<R: Files>(files: &R, path: &Path, piece: &[u8]) -> io::Result<()> {
    let mut file = File::create(files, path.as_str())?;
    write_whole(&mut file, piece)
}

/// Adds a piece at the end of a stream's file.
pub fn append_to<R: Files>(files: &R, path: &Path, piece: &[u8]) -> io::Result<()> {
    let mut file = OpenOptions::new().append(true).open(files, path.as_str())?;
    write_whole(&mut file, piece)
}

/// Fills `into` with a stream's bytes from a place on.
pub fn read_from<R: Files>(files: &R, path: &Path, at: u64, into: &mut [u8]) -> io::Result<()>
    ensures { length into.new ≡ length into.old }
{
    let mut file = File::open(files, path.as_str())?;
    if at > 0 {
        file.seek(SeekFrom::Start(at))?;
    }
    read_whole(&mut file, into)
}

/// Fills `into` from a stream that has no bytes, which no piece but an empty one is read from.
pub fn read_from_none(into: &[u8]) -> io::Result<()>
    ensures { IsOk result ↔ (length into.now ≡ 0) }
{
    if into.is_empty() {
        return Ok(());
    }
    Err(io::Error::from(ErrorKind::UnexpectedEof))
}

/// How many bytes a stream's file has.
pub fn length_of<R: Files>(files: &R, path: &Path) -> io::Result<u64> {
    Ok(fs::metadata(files, path.as_str())?.len())
}
