//! The axes of a grid.

ghost use Rattle.std.specs.Prelude.{◌≡◌, ◌<◌};
ghost use Rattle.slice_view.specs.Bands.{across, along_columns, along_rows};

/// An axis of the grid.
#[derive(Clone, Copy, Debug, PartialEq, Eq)]
pub enum Axis {
    X,
    Y,
    Z,
}

impl Axis {
    /// The number of the axis.
    pub fn number(self) -> u32
        ensures value { result ≡ across self }
        ensures within { result < 3 }
    {
        match self {
            Axis::X => 0,
            Axis::Y => 1,
            Axis::Z => 2,
        }
    }

    /// The number of the axis along the columns of a slice across this one.
    pub fn of_columns(self) -> u32
        ensures value { result ≡ along_columns self }
        ensures within { result < 3 }
    {
        match self {
            Axis::X => 1,
            Axis::Y | Axis::Z => 0,
        }
    }

    /// The number of the axis along the rows of a slice across this one.
    pub fn of_rows(self) -> u32
        ensures value { result ≡ along_rows self }
        ensures within { result < 3 }
    {
        match self {
            Axis::X | Axis::Y => 2,
            Axis::Z => 1,
        }
    }
}
