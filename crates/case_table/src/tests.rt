//! Single entries, counted by hand.

use super::{axis_cases, octant_orders, row_pairs};

#[test]
fn entries_stand_at_their_places(rt: HostRuntime) {
    let pairs = row_pairs();
    assert_eq!(rt; pairs.get(0), [0, 1, 0]);
    assert_eq!(rt; pairs.get(8), [1, 2, 0]);
    assert_eq!(rt; pairs.get(35), [7, 8, 0]);
    let axes = axis_cases();
    assert_eq!(rt; axes.get(2), [0, 0, 2]);
    assert_eq!(rt; axes.get(3), [1, 0, 0]);
    assert_eq!(rt; axes.get(6), [2, 0, 2]);
    assert_eq!(rt; axes.get(12), [2, 2, 2]);
    let orders = octant_orders();
    assert_eq!(rt; orders.get(5), [5, 0, 0]);
    assert_eq!(rt; orders.get(8), [1, 0, 0]);
    assert_eq!(rt; orders.get(8 * 6 + 1), [7, 0, 0]);
    assert_eq!(rt; orders.get(63), [0, 0, 0]);
}
