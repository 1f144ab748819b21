//! Reads a mesh in ASCII PLY ("The PLY Polygon File Format", Greg Turk, Stanford, 1994) as usual tools
//! write it: any header, further properties and elements, faces of 3 to 255 corners.
#![tactic(auto)]

mod body;
mod declarations;
mod elements;
mod faces;
mod fans;
mod fault;
mod header;
mod header_lines;
mod layouts;
mod mesh;
mod names;
mod properties;
mod rows;
mod scales;
mod slices;
mod taking;
mod vertices;
mod whole_mesh;

pub use elements::{Element, Role};
pub use fans::FaceTriangle;
pub use fault::{PlyFault, PlyKind};
pub use header::Header;
pub use mesh::MeshReader;
pub use properties::{Part, Property, Scalar};
pub use scales::Scale;
pub use whole_mesh::{MeshFault, WholeMesh, read_mesh};
