//! Whole meshes in memory. Expected points, triangles, kinds and places were worked out by hand.

ghost use Rattle.std.specs.Prelude.{◌≤◌};

use dev_traits::MemSource;
use ply_reader::{FaceTriangle, MeshFault, PlyFault, PlyKind, WholeMesh, read_mesh};
use std::alloc::Global;
use std::test::Fail;
use svo_base::Point;

/// One triangle.
const TRIANGLE: &[u8] =
    b"ply\nformat ascii 1.0\nelement vertex 3\nproperty int x\nproperty int y\nproperty int z\nelement face 1\nproperty list uchar int vertex_indices\nend_header\n0 0 0\n1 0 0\n0 1 0\n3 0 1 2\n";

/// A square with normals and colours, its lines ended by CR LF.
const SQUARE: &[u8] =
    b"ply\r\nformat ascii 1.0\r\ncomment written as usual tools write\r\nobj_info one square\r\nelement vertex 4\r\nproperty float x\r\nproperty float y\r\nproperty float z\r\nproperty float nx\r\nproperty float ny\r\nproperty float nz\r\nproperty uchar red\r\nproperty uchar green\r\nproperty uchar blue\r\nelement face 1\r\nproperty list uchar int vertex_indices\r\nend_header\r\n0.000000 0.000000 0.000000 0.000000 0.000000 1.000000 255 255 255\r\n1e2 0.000000 0.000000 0.000000 0.000000 1.000000 255 255 255\r\n100.000000 1E+2 -0.0 0.000000 0.000000 1.000000 255 0 0\r\n0 100 0 0.000000 0.000000 1.000000 255 0 0\r\n4 0 1 2 3\r\n";

const SQUARE_POINTS: &[Point] = &[
    Point { x: 0, y: 0, z: 0 },
    Point { x: 100, y: 0, z: 0 },
    Point {
        x: 100,
        y: 100,
        z: 0,
    },
    Point { x: 0, y: 100, z: 0 },
];

/// The mesh of a text that is read in pieces, where the reads of a list are refused.
fn mesh_of(
    alloc: Global,
    text: &[u8],
    piece: usize,
    fails: &[u64],
    decimals: u32,
    cut: bool,
) -> Result<WholeMesh, MeshFault>
    requires piece { 1 ≤ piece }
    requires decimals { decimals ≤ 9 }
{
    let Ok(mut source) = MemSource::new(alloc, text, piece, fails) else {
        return Err(MeshFault::Memory);
    };
    let mut block = [0; 2048];
    read_mesh(alloc, &mut source, &mut block, decimals, cut)
}

#[test]
fn a_square_is_two_triangles_of_its_points(rt: HostRuntime) -> Result<(), Fail> {
    let mesh = mesh_of(rt.alloc(), SQUARE, 7, &[], 0, false)?;
    assert_eq!(rt; mesh.points(), SQUARE_POINTS, "the points");
    let corners = [[0, 1, 2], [0, 2, 3]];
    for (triangle, corners) in mesh.triangles().iter().zip(&corners) {
        assert_eq!(rt;
            *triangle,
            FaceTriangle {
                face: 0,
                corners: *corners
            },
            "a triangle"
        );
    }
    Ok(())
}

#[test]
fn a_refused_text_is_named(rt: HostRuntime) {
    match mesh_of(rt.alloc(), b"ply\nf", 7, &[], 0, false) {
        Ok(_) => assert!(rt; false, "no mesh"),
        Err(fault) => assert_eq!(rt;
            fault,
            MeshFault::Text(PlyFault::Refused {
                kind: PlyKind::BadHeader,
                place: 4
            }),
            "the refusal"
        ),
    }
}

/// A read of this number is refused, and whether the mesh is read all the same.
const REFUSED_READS: &[(u64, bool)] = &[
    (1, false),
    (2, false),
    (13, false),
    (25, false),
    (26, false),
    (27, true),
];

#[test]
fn a_refused_read_is_a_read_fault(rt: HostRuntime) -> Result<(), Fail> {
    for (call, is_read) in REFUSED_READS {
        match mesh_of(rt.alloc(), TRIANGLE, 7, &[*call], 0, false) {
            Ok(_) => assert!(rt; *is_read, "the mesh"),
            Err(fault) => {
                assert_eq!(rt; fault, MeshFault::Text(PlyFault::ReadFault), "the fault");
                assert!(rt; !*is_read, "no mesh");
            }
        }
    }
    Ok(())
}
