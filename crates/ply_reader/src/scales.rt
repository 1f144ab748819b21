//! How coordinates are made whole.

/// A power of ten that coordinates are multiplied by, and whether they are then cut toward zero.
#[derive(Clone, Copy, Debug, PartialEq, Eq)]
pub struct Scale {
    /// At most 9.
    pub decimals: u32,
    /// Whether what is left behind the point is cut off; else it is refused.
    pub cut: bool,
}
