//! Laws of cameras and their views. Each function does nothing: a call gives its `ensures`.

ghost use Rattle.slice_view.specs.Cameras.{IsRefusedOnlyStill};
ghost use Rattle.slice_view.specs.Laws.{FrontsOfViews, ViewsAreOne};

/// The ray of a camera's pixel is refused for nothing but a direction of zero.
pub fn pixels_refuse_only_still_rays()
    ensures { IsRefusedOnlyStill }
{}

/// A camera has one view of some cells at most: it is a function of the camera, the grid and the cells.
pub fn views_are_one()
    ensures { ViewsAreOne }
{}

/// What is put of a picture of the first pixels is a front of the whole view.
pub fn fronts_are_of_whole_views()
    ensures { FrontsOfViews }
{}
