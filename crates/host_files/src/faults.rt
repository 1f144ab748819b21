//! The answer of a call of the host, and the count of faults.

ghost use Rattle.std.specs.Prelude.{◌≡◌, Ok, IfOk, OnOk, OnErr};
ghost use Rattle.dev_traits.specs.Faults.{HasCause, counted};

use dev_traits::Failed;
use std::io;

/// What the host answered; where it refused, a fault is counted, up to 2^64 - 1.
pub fn answered<T: Drop>(faults: &mut u64, outcome: io::Result<T>) -> Result<T, Failed>
    ensures value { IfOk result (λ value. outcome ≡ Ok value) }
    ensures kept { OnOk result (faults.new ≡ faults.old) }
    ensures counted { OnErr result (faults.new ≡ counted faults.old) }
    ensures cause { HasCause faults.old faults.new result }
{
    match outcome {
        Ok(value) => Ok(value),
        Err(_) => {
            *faults = faults.saturating_add(1);
            Err(Failed)
        }
    }
}
