use dev_traits::ByteSource;
use mesh_maker::MadeMesh;

/// The text of number 0 and side 1: the generator's numbers after 0 begin with 1442695040888963407, and
/// their six highest bits are 5, 6, 38 and 25.
const TEXT: &[u8] =
    b"ply\nformat ascii 1.0\nelement vertex 4\nproperty int x\nproperty int y\nproperty int z\nelement face 1\nproperty list uchar int vertex_indices\nend_header\n0 0 5\n16 0 6\n0 16 38\n16 16 25\n4 0 1 3 2\n";

/// Sizes of reads, in turn.
const SIZES: [usize; 5] = [1, 7, 150, 3, 64];

#[test]
fn a_made_text_in_reads_of_odd_sizes(rt: HostRuntime) {
    let mut mesh = MadeMesh::new(0, 1);
    let mut block = [0; 150];
    let mut at: usize = 0;
    for turn in 0..12 {
        let size = SIZES[turn % 5];
        let count = mesh.read(&mut block[..size]).unwrap_or(0);
        let end = at.saturating_add(count);
        assert!(rt; end <= TEXT.len(), "no more than the text");
        assert!(rt; block[..count] == TEXT[at..end], "the next bytes");
        assert!(rt; count == size || end == TEXT.len(), "a full read");
        at = end;
    }
    assert_eq!(rt; at, TEXT.len(), "the whole text");
}
