//! Pictures of the filled cells of a node file: slices across an axis, and views from a camera.
#![tactic(auto)]

mod axes;
mod bands;
mod cameras;
mod headers;
mod laws;
mod painting;
mod pixels;
mod slicing;
mod squares;
mod viewing;

pub use axes::Axis;
pub use cameras::{Camera, CameraKind};
pub use laws::{fronts_are_of_whole_views, pixels_refuse_only_still_rays, views_are_one};
pub use node_check::AnswerStop;
pub use slicing::slice;
pub use viewing::view;
