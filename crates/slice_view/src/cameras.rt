//! Cameras, and the rays through their pixels.

ghost use Rattle.std.specs.Prelude.{◌≡◌, ◌+◌, ◌*◌, ◌<◌, ◌≤◌, ◌^◌, ◌&&◌, ◌+ℤ◌, ◌-ℤ◌, ◌*ℤ◌, pos, unsigned_abs, All};
ghost use Rattle.std.specs.List.{list_all};
ghost use Rattle.svo_base.specs.GridLimits.{is_positive, is_within};
ghost use Rattle.slice_view.specs.Cameras.{is_from_one_to};

use ray_fraction::{Ray, RayFault};
use std::marker::Model;

/// The greatest size of a component of the eye.
const EYE_LIMIT: u64 = 1 << 39;

/// The greatest size of a component of the directions.
const DIRECTION_LIMIT: u64 = 1 << 16;

/// The greatest width and height, in pixels.
const SIDE_LIMIT: u64 = 4096;

/// The greatest time beyond which all is dark.
const FAR_LIMIT: u64 = 1 << 40;

/// How the rays of a camera run.
#[derive(Clone, Copy, Debug, PartialEq, Eq)]
pub enum CameraKind {
    /// All in one direction, from places beside the eye.
    Parallel,
    /// From the eye, in directions beside each other.
    Pinhole,
}

/// A camera: where it stands, which way it looks, half a pixel's way to the right and up, the width
/// and height of its picture in pixels, and the time beyond which what a ray hits is dark.
#[derive(Clone, Copy, Debug, PartialEq, Eq)]
pub struct Camera {
    kind: CameraKind,
    eye: [i64; 3],
    toward: [i64; 3],
    right: [i64; 3],
    up: [i64; 3],
    width: u32,
    height: u32,
    far: u64,
}

impl Model for Camera {
    ghost use Rattle.slice_view.specs.Cameras.{CameraShape, IsCamera};

    ghost Value = { CameraShape };

    ghost view = { λ c. record { kind = c.kind; eye = c.eye; toward = c.toward; right = c.right; up = c.up; width = c.width; height = c.height; far = c.far } };

    ghost invariant = { λ c. IsCamera (record { kind = c.kind; eye = c.eye; toward = c.toward; right = c.right; up = c.up; width = c.width; height = c.height; far = c.far }) };

    ghost inverse = { λ v. record { kind = v.kind; eye = v.eye; toward = v.toward; right = v.right; up = v.up; width = v.width; height = v.height; far = v.far } };
}

impl Camera {
    ghost use Rattle.slice_view.specs.Cameras.{IsCamera, camera_from, pixel_ray, rightward, upward, moved, moved_along, axis_of};

    /// The camera of these numbers, or `None` exactly where one passes its limit: components of the
    /// eye have a size of at most 2^39, those of the directions of at most 2^16, width and height are
    /// from 1 to 4096, and `far` is from 1 to 2^40.
    #[tactic(auto, unfolding(crate::specs::Cameras::camera_from))]
    pub fn new(
        kind: CameraKind,
        eye: [i64; 3],
        toward: [i64; 3],
        right: [i64; 3],
        up: [i64; 3],
        width: i64,
        height: i64,
        far: i64,
    ) -> Option<Camera>
        ensures { result ≡ camera_from kind eye toward right up width height far }
    {
        if !are_within(&eye, EYE_LIMIT) {
            return None;
        }
        if !are_within(&toward, DIRECTION_LIMIT) {
            return None;
        }
        if !are_within(&right, DIRECTION_LIMIT) {
            return None;
        }
        if !are_within(&up, DIRECTION_LIMIT) {
            return None;
        }
        if !is_from_one_to(SIDE_LIMIT, &width)
            || !is_from_one_to(SIDE_LIMIT, &height)
            || !is_from_one_to(FAR_LIMIT, &far)
        {
            return None;
        }
        Some(Camera {
            kind,
            eye,
            toward,
            right,
            up,
            width: width.unsigned_abs() as u32,
            height: height.unsigned_abs() as u32,
            far: far.unsigned_abs(),
        })
    }

    /// The width of its picture, in pixels.
    pub fn width(&self) -> u32
        ensures value { result ≡ self.now.width }
        ensures limits { IsCamera self.now }
    {
        self.width
    }

    /// The height of its picture, in pixels.
    pub fn height(&self) -> u32
        ensures value { result ≡ self.now.height }
        ensures limits { IsCamera self.now }
    {
        self.height
    }

    /// The number of its picture's pixels.
    pub(crate) fn size(&self) -> u32
        ensures value { result ≡ self.now.width * self.now.height }
        ensures within { result ≤ 2 ^ 24 }
    {
        self.width() * self.height()
    }

    /// The time beyond which what a ray hits is dark.
    pub fn far(&self) -> u64
        ensures value { result ≡ self.now.far }
        ensures limits { IsCamera self.now }
    {
        self.far
    }

    /// The ray through the middle of a pixel, with rows counted from the top; it is refused where its
    /// direction is zero.
    #[tactic(auto, unfolding(crate::specs::Cameras::ray_by))]
    pub fn ray(&self, column: u32, row: u32) -> Result<Ray, RayFault>
        requires column { column < self.now.width }
        requires row { row < self.now.height }
        ensures { result ≡ pixel_ray self.now column row }
    {
        let a = self.rightward(column);
        let b = self.upward(row);
        match self.kind {
            CameraKind::Parallel => Ray::new(self.moved(&self.eye, a, b), self.toward),
            CameraKind::Pinhole => Ray::new(self.eye, self.moved(&self.toward, a, b)),
        }
    }

    /// How far the middle of a column lies right of the picture's middle, in half pixels.
    fn rightward(&self, column: u32) -> i64
        requires { column < self.now.width }
        ensures value { result ≡ rightward self.now column }
        ensures within { unsigned_abs result ≤ 2 ^ 13 }
    {
        let width = i64::from(self.width);
        i64::from(2 * column + 1) - width
    }

    /// How far the middle of a row lies above the picture's middle, in half pixels.
    fn upward(&self, row: u32) -> i64
        requires { row < self.now.height }
        ensures value { result ≡ upward self.now row }
        ensures within { unsigned_abs result ≤ 2 ^ 13 }
    {
        i64::from(self.height) - i64::from(2 * row + 1)
    }

    /// From a vector so many half pixels to the right and up.
    fn moved(&self, vector: &[i64; 3], a: i64, b: i64) -> [i64; 3]
        requires vector { All (λ z. unsigned_abs z ≤ 2 ^ 39) vector.now }
        requires a { unsigned_abs a ≤ 2 ^ 13 }
        requires b { unsigned_abs b ≤ 2 ^ 13 }
        ensures { result ≡ moved self.now vector.now a b }
    {
        [
            self.moved_along(vector, 0, a, b),
            self.moved_along(vector, 1, a, b),
            self.moved_along(vector, 2, a, b),
        ]
    }

    /// The same along an axis.
    fn moved_along(&self, vector: &[i64; 3], axis: usize, a: i64, b: i64) -> i64
        requires vector { All (λ z. unsigned_abs z ≤ 2 ^ 39) vector.now }
        requires axis { axis < 3 }
        requires a { unsigned_abs a ≤ 2 ^ 13 }
        requires b { unsigned_abs b ≤ 2 ^ 13 }
        ensures value { result ≡ moved_along self.now vector.now axis a b }
        ensures within { unsigned_abs result ≤ 2 ^ 40 }
    {
        vector[axis] + self.way(axis, a, b)
    }

    /// The way along an axis of so many half pixels to the right and up.
    fn way(&self, axis: usize, a: i64, b: i64) -> i64
        requires axis { axis < 3 }
        requires a { unsigned_abs a ≤ 2 ^ 13 }
        requires b { unsigned_abs b ≤ 2 ^ 13 }
        ensures value { result ≡ (a *ℤ axis_of self.now.right axis) +ℤ (b *ℤ axis_of self.now.up axis) }
        ensures within { unsigned_abs result ≤ 2 ^ 30 }
    {
        product(a, self.right[axis]) + product(b, self.up[axis])
    }
}

/// So many times a component of a direction.
fn product(times: i64, component: i64) -> i64
    requires times { unsigned_abs times ≤ 2 ^ 13 }
    requires component { unsigned_abs component ≤ 2 ^ 16 }
    ensures value { result ≡ times *ℤ component }
    ensures within { unsigned_abs result ≤ 2 ^ 29 }
{
    times * component
}

/// Whether all components are at most of a size.
fn are_within(components: &[i64; 3], limit: u64) -> bool
    ensures { result ≡ list_all (is_within limit) components.now }
{
    components
        .iter()
        .all(|component| component.unsigned_abs() <= limit)
}

/// Whether a number is from 1 to a limit.
fn is_from_one_to(limit: u64, number: &i64) -> bool
    ensures { result ≡ is_from_one_to limit number.now }
{
    *number >= 1 && number.unsigned_abs() <= limit
}
