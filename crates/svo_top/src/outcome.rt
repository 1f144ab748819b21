//! How a run ends.

ghost use Rattle.std.specs.Prelude.{◌≡◌};
ghost use Rattle.svo_top.specs.Codes.{code_of_status};

use ply_reader::PlyKind;
use svo_base::GridFault;

/// How a run ended.
#[derive(Clone, Copy, Debug, PartialEq, Eq)]
pub enum Status {
    /// The command read its whole input and wrote its whole output.
    Done,
    /// The words are no command line of this program.
    Usage(UsageKind),
    /// The input was refused. The place is the number of bytes before what is wrong.
    Input { kind: InputKind, place: u64 },
    /// A number among the words is out of its range.
    Range(RangeFault),
    /// A device failed.
    Device(Device),
    /// The named file is no node file.
    Refused(NodeRefusal),
    /// There was not enough memory.
    Memory,
}

/// What is wrong with the words.
#[derive(Clone, Copy, Debug, PartialEq, Eq)]
pub enum UsageKind {
    /// The first word is missing or unknown.
    Command,
    /// The words after it are not in the command's form.
    Options,
    /// They are, and the text of a value is of another kind.
    Value,
}

/// What is wrong with the input.
#[derive(Clone, Copy, Debug, PartialEq, Eq)]
pub enum InputKind {
    /// The text is no mesh in ASCII PLY.
    Ply(PlyKind),
    /// A line of the text of rays is not six numbers.
    BadRay,
    /// A line of the text of points is not three numbers.
    BadPoint,
    /// A line of the text of rays or points has more than 1024 bytes.
    LineTooLong,
    /// The text of rays or points has more than 2^62 bytes.
    TooLong,
}

/// Which range a number is out of.
#[derive(Clone, Copy, Debug, PartialEq, Eq)]
pub enum RangeFault {
    /// The number of decimals is not from 0 to 9.
    Decimals,
    /// A limit of the grid.
    Grid(GridFault),
    /// The memory is above 2^31 bytes.
    TooLarge,
    /// The memory is below the least for the depth, which is carried, in bytes.
    TooSmall(u64),
    /// A coordinate of the triangle has a size above 2^30.
    Triangle,
    /// A coordinate of the cube's lower corner has a size above 2^32, or its side is not from 1 to 2^32.
    Cube,
    /// The number of kept blocks is not from 1 to 65,536.
    Keep,
    /// The code is not that of a cell of the file's grid.
    Code,
    /// The number of a made mesh is below 0, or its side is not from 1 to 1024.
    Made,
    /// The slice is not at a place of the file's grid.
    Slice,
    /// A number of the camera is out of its limits.
    View,
    /// A ray is out of its limits. The place is the number of bytes before its line.
    Ray(u64),
    /// A point is out of its limits. The place is the number of bytes before its line.
    Point(u64),
    /// The two files have not one grid.
    Grids,
    /// The number of levels is not from 1 to one below the depth of the file's grid.
    Levels,
}

/// Which device failed.
#[derive(Clone, Copy, Debug, PartialEq, Eq)]
pub enum Device {
    /// The input.
    Read,
    /// The scratch.
    Scratch,
    /// The output.
    Write,
    /// The store of node files.
    Nodes,
}

/// Why a named file is no node file.
#[derive(Clone, Copy, Debug, PartialEq, Eq)]
pub enum NodeRefusal {
    /// No file has the name.
    NoFile,
    /// The file is not framed as a node file is.
    NotNodes,
    /// It is framed, and its words are those of no cells. The number is that of the first word that
    /// does not fit, from the root down, or the number behind the last one for the trailer.
    Number(u64),
    /// No file has the name of the second file.
    WithNoFile,
    /// The second file is not framed as a node file is.
    WithNotNodes,
    /// The second file is framed, and its words are those of no cells, with the number as of the first.
    WithNumber(u64),
}

impl Status {
    /// The exit status of the process: 0 where the run is done, and else a number from 2 to 7.
    pub fn code(&self) -> u8
        ensures { result ≡ code_of_status self.now }
    {
        match self {
            Status::Done => 0,
            Status::Usage(_) => 2,
            Status::Input { .. } => 3,
            Status::Range(_) => 4,
            Status::Device(_) => 5,
            Status::Refused(_) => 6,
            Status::Memory => 7,
        }
    }
}
