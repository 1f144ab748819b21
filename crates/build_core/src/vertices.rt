//! The vertices of a mesh, put on scratch.

ghost use Rattle.std.specs.Prelude.{◌≡◌, ◌≤◌, ◌<◌, ◌^◌, [], true, false, Err, IfOk, OnOk, MatchResult};
ghost use Rattle.dev_traits.specs.Faults.{Rose};
ghost use Rattle.ply_text.specs.Calls.{SameLent};
ghost use Rattle.ply_reader.specs.Declarations.{declared};
ghost use Rattle.ply_reader.specs.MeshCalls.{mesh_reading, IsReady};
ghost use Rattle.build_core.specs.Spilling.{SpoolsPoints, StopsSpilling};

use crate::faults::SpillFault;
use dev_traits::{ByteSource, Scratch};
use ply_reader::MeshReader;
use ply_text::Tokens;
use svo_base::BoundingBox;
use vertex_spool::Spool;

/// Puts all vertices on scratch, and answers the box around them.
pub fn spool_points<I: ByteSource, S: Scratch>(
    tokens: &mut Tokens<'_, I>,
    reader: &mut MeshReader,
    spool: &mut Spool<'_>,
    scratch: &mut S,
) -> Result<BoundingBox, SpillFault>
    requires ready { IsReady (mesh_reading tokens.old reader.old) }
    requires few { reader.old.body.vertices < 2 ^ 32 }
    requires none { spool.old.count ≡ 0 }
    requires waiting { spool.old.waiting ≡ [] }
    requires unclosed { spool.old.closed ≡ false }
    requires stream { 0 < S.started scratch.old }
    ensures same { SameLent tokens.old tokens.new }
    ensures ready { IsReady (mesh_reading tokens.new reader.new) }
    ensures spools { MatchResult result
        (SpoolsPoints (mesh_reading tokens.old reader.old) (mesh_reading tokens.new reader.new) (S.told scratch.old) (S.told scratch.new) spool.new)
        (StopsSpilling (mesh_reading tokens.old reader.old) (mesh_reading tokens.new reader.new)) }
    ensures used_up { OnOk result (reader.new.body.vertices ≡ 0) }
    ensures count { OnOk result (spool.new.count ≡ reader.old.body.vertices) }
    ensures header { OnOk result (declared reader.new.body.header ≡ declared reader.old.body.header) }
    ensures faces { reader.new.body.faces ≡ reader.old.body.faces }
    ensures fan { reader.new.body.fan ≡ reader.old.body.fan }
    ensures closed { OnOk result (spool.new.closed ≡ true) }
    ensures window { spool.new.window ≡ spool.old.window }
    ensures started { S.started scratch.new ≡ S.started scratch.old }
    ensures asked { S.asked scratch.new ≡ S.asked scratch.old }
    ensures later { S.faults scratch.old ≤ S.faults scratch.new }
    ensures cause { result ≡ Err SpillFault.Scratch → Rose (S.faults scratch.old) (S.faults scratch.new) }
{
    let mut bounds = BoundingBox::new();
    while let Some(point) = reader.next_vertex(tokens)? {
        spool.put(point, scratch)?;
        bounds.add(&point);
    }
    spool.close(scratch)?;
    Ok(bounds)
}
