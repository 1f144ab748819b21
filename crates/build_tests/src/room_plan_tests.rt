//! Plans, the room for one, and queues over lent entries, as a layer above would use them.

ghost use Rattle.std.specs.Prelude.{◌≡◌, ◌<◌, length, IfOk};

use room_plan::{Fixed, MemPlan, Parcel, PlanFault, QueueEntry, Queues, Room, VertexBlock, plan};
use std::alloc::Global;
use std::marker::Brand;
use std::sync::ledger::{Blank, Ledger};
use svo_base::Steps;

/// The queues' length, how often an entry was placed, and the last two entries, after one of them was
/// placed and placed again.
fn place_twice<L: Ledger>(
    entries: &mut [QueueEntry],
    blank: Blank,
) -> (usize, u64, QueueEntry, QueueEntry)
    requires long { 1 < length entries.old }
    requires name { blank.name ≡ L.name }
    requires parts { blank.parts ≡ L.parts }
    requires one { 0 < blank.parts }
{
    let mut moves = Steps::<L>::new(blank);
    let mut queues = Queues::new(entries);
    let last = queues.len() - 1;
    queues.place(last, QueueEntry { word: 7, state: 1 }, &mut moves);
    queues.place(last, QueueEntry { word: 8, state: 1 }, &mut moves);
    (
        queues.len(),
        queues.placed(),
        queues.get(last - 1),
        queues.get(last),
    )
}

fn placed_twice(entries: &mut [QueueEntry]) -> (usize, u64, QueueEntry, QueueEntry)
    requires { 1 < length entries.old }
{
    place_twice::<Brand>(entries, Blank::new(1))
}

#[test]
fn an_entry_is_placed_over_another(rt: HostRuntime) {
    let first = QueueEntry { word: 1, state: 2 };
    let mut entries = [first; 3];
    assert_eq!(rt;
        placed_twice(&mut entries),
        (3, 2, first, QueueEntry { word: 8, state: 1 })
    );
}

const PLANS: &[(u32, i64, u32, u32, u32, u32)] = &[
    (1, 14212, 1, 64, 4, 1),
    (1, 14240, 0, 64, 4, 8),
    (8, 65536, 4, 450, 26, 4096),
    (12, 67124480, 4, 64, 4, 16777216),
    (12, 268435456, 4, 1048576, 65536, 16777216),
];

#[test]
fn plans_use_what_is_left_by_halves(rt: HostRuntime) {
    for &(depth, limit, split, pool, window, slots) in PLANS {
        assert_eq!(rt;
            plan_within(depth, limit),
            Ok(MemPlan {
                depth,
                split,
                pool,
                window,
                slots,
            }),
            "at depth {depth} with {limit} bytes"
        );
    }
}

const REFUSED: &[(u32, i64, PlanFault)] = &[
    (1, 14211, PlanFault::TooSmall(14212)),
    (1, -1, PlanFault::TooSmall(14212)),
    (12, 67124479, PlanFault::TooSmall(67124480)),
    (12, i64::MIN, PlanFault::TooSmall(67124480)),
    (12, 2147483649, PlanFault::TooLarge),
    (1, i64::MAX, PlanFault::TooLarge),
];

#[test]
fn limits_are_refused_above_two_gibibytes_and_below_the_least(rt: HostRuntime) {
    for &(depth, limit, fault) in REFUSED {
        assert_eq!(rt;
            plan_within(depth, limit),
            Err(fault),
            "at depth {depth} with {limit} bytes"
        );
    }
    assert!(rt; plan(12, 1 << 31).is_ok(), "the most that is accepted");
}

/// The plan, for depths that there are.
fn plan_within(depth: u32, limit: i64) -> Result<MemPlan, PlanFault> {
    if depth < 1 || 12 < depth {
        return Err(PlanFault::TooLarge);
    }
    plan(depth, limit)
}

#[test]
fn a_room_has_the_lengths_of_its_plan(rt: HostRuntime) {
    let planned = plan(1, 15000).expect(&rt, "a plan");
    let room = Room::make(rt.alloc(), &planned).expect(&rt, "memory");
    assert_eq!(rt; (room.block_a.len(), room.block_b.len()), (4096, 4096));
    assert_eq!(rt; room.window.len(), planned.window as usize);
    assert_eq!(rt; room.pool.len(), planned.pool as usize);
    assert_eq!(rt; room.queues.len(), 8);
    assert_eq!(rt; room.slots.len(), planned.slots as usize);
}

#[test]
fn a_fixed_vector_is_written_in_place(rt: HostRuntime) {
    let last = write_last(rt.alloc(), 3).expect(&rt, "memory");
    assert_eq!(rt; last, (3, 0, 7), "its length, its first item, its last");
}

/// Writes 7 over the last of so many zeros.
fn write_last(alloc: Global, length: usize) -> Result<(usize, u32, u32), std::alloc::AllocError>
    requires { 1 < length }
    ensures { IfOk result (λ it. (it.0 ≡ length) × (it.1 ≡ 0) × (it.2 ≡ 7)) }
{
    let mut items = Fixed::filled(alloc, 0u32, length)?;
    let lent = items.as_mut_slice();
    lent[length - 1] = 7;
    let items = items.as_slice();
    Ok((items.len(), items[0], items[length - 1]))
}

#[test]
fn elements_have_the_sizes_that_plans_count(rt: HostRuntime) {
    assert_eq!(rt; size_of::<VertexBlock>(), 768, "a block of vertices");
    assert_eq!(rt; size_of::<Parcel>(), 44, "a parcel");
    assert_eq!(rt; size_of::<QueueEntry>(), 16, "a queue entry");
}
