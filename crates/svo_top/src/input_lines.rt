//! The commands `cast` and `near`: which cells the rays of the input hit first, and which are nearest to
//! its points.

ghost use Rattle.std.specs.Prelude.{◌≡◌};
ghost use Rattle.svo_top.specs.InputLines.{status_of_line, status_of_lines};

use crate::outcome::{Device, InputKind, NodeRefusal, RangeFault, Status};
use node_check::WalkFault;
use ray_answers::{LineFault, LineStop};

/// How a run ends whose lines are answered so.
pub fn status_of_lines(answer: Result<(), LineStop>) -> Status
    ensures { result ≡ status_of_lines answer }
{
    match answer {
        Ok(()) => Status::Done,
        Err(LineStop::AtLine(fault)) => status_of_line(fault),
        Err(LineStop::ReadFault) => Status::Device(Device::Read),
        Err(LineStop::WriteFault) => Status::Device(Device::Write),
        Err(LineStop::Walk(WalkFault::Failed)) => Status::Device(Device::Nodes),
        Err(LineStop::Walk(WalkFault::Refused { number, .. })) => {
            Status::Refused(NodeRefusal::Number(number))
        }
        Err(LineStop::Memory) => Status::Memory,
    }
}

/// How a run ends at a line that is not answered.
fn status_of_line(fault: LineFault) -> Status
    ensures { result ≡ status_of_line fault }
{
    match fault {
        LineFault::BadRay(place) => refused(InputKind::BadRay, place),
        LineFault::BadPoint(place) => refused(InputKind::BadPoint, place),
        LineFault::LineTooLong(place) => refused(InputKind::LineTooLong, place),
        LineFault::TooLong(place) => refused(InputKind::TooLong, place),
        LineFault::RayRange(place) => Status::Range(RangeFault::Ray(place)),
        LineFault::PointRange(place) => Status::Range(RangeFault::Point(place)),
    }
}

/// The text of rays or points is refused so.
fn refused(kind: InputKind, place: u64) -> Status
    ensures { result ≡ Status.Input kind place }
{
    Status::Input { kind, place }
}
