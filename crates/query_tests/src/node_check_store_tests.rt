//! A caller that lends its store to a file, and knows it again afterwards.

ghost use Rattle.std.specs.Prelude.{◌≡◌, ◌<◌, ◌≤◌, Err};
ghost use Rattle.dev_traits.specs.Faults.{Rose};
ghost use Rattle.node_check.specs.declared.checking.CheckFault.TheVariants.{Failed};

use dev_traits::{MemStore, NodeStore};
use node_check::{CheckFault, check};
use node_file::{Frame, LoadFault, Nodes, Totals};
use std::alloc::{AllocError, Global};
use std::marker::Brand;
use std::sync::ledger::{Blank, Ledger};
use svo_base::Steps;

/// Loads a named file and checks it. One that is none is refused with the number 0.
fn check_named<N: NodeStore, L: Ledger>(
    store: &mut N,
    name: &str,
    reads: &mut Steps<L>,
) -> Result<Totals, CheckFault>
    ensures later { N.faults store.old ≤ N.faults store.new }
    ensures cause { result ≡ Err Failed → Rose (N.faults store.old) (N.faults store.new) }
{
    let frame = match Frame::read(store, name) {
        Ok(frame) => frame,
        Err(LoadFault::Failed) => return Err(CheckFault::Failed),
        Err(_) => return Err(CheckFault::Refused { number: 0 }),
    };
    let mut nodes = Nodes::new(store, frame);
    let totals = check(&mut nodes, reads)?;
    Ok(totals)
}

/// The same of a store with one file, which refuses the call of this number.
#[tactic(auto, unfolding(dev_traits::specs::Files::file_named))]
fn check_counted<L: Ledger>(
    alloc: Global,
    bytes: &[u8],
    refused: u64,
    blank: Blank,
) -> Result<Result<Totals, CheckFault>, AllocError>
    requires name { blank.name ≡ L.name }
    requires parts { blank.parts ≡ L.parts }
    requires one { 0 < blank.parts }
{
    let mut store = MemStore::new(alloc, &[refused])?;
    store.add("octree", bytes)?;
    let mut reads = Steps::<L>::new(blank);
    Ok(check_named(&mut store, "octree", &mut reads))
}

fn check_bytes(
    alloc: Global,
    bytes: &[u8],
    refused: u64,
) -> Result<Result<Totals, CheckFault>, AllocError> {
    check_counted::<Brand>(alloc, bytes, refused, Blank::new(1))
}

const FILE: [u8; 96] =
    *b"SVOCUBE2\x01\0\0\0\0\0\0\0\x05\0\0\0\0\0\0\0\xfe\xff\xff\xff\xff\xff\xff\xff\0\0\0\0\0\0\0\0\x03\0\0\0\0\0\0\0\x01\0\0\0\0\0\0\0\x08\0\0\0\0\0\0\0\0\0\0\0\0\0\0\0\x02\0\0\0\0\0\0\0\x01\0\0\0\0\0\0\0SVOCEND2";

#[test]
fn files_of_a_store_are_checked(rt: HostRuntime) {
    for refused in 0..7 {
        let checked = check_bytes(rt.alloc(), &FILE, refused).expect(&rt, "memory");
        let expected = if refused == 0 {
            Ok(Totals {
                records: 2,
                cells: 1,
            })
        } else {
            Err(CheckFault::Failed)
        };
        assert_eq!(rt; checked, expected, "where call {refused} is refused");
    }
}
