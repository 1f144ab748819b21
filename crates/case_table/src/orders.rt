//! The orders in which a ray visits the eight children of a node.

ghost use Rattle.std.specs.Prelude.{◌≡◌};
ghost use Rattle.case_table.specs.CaseLists.{octant_order_list};

use crate::cases::Cases;

/// The children of a node in eight orders, one behind the other.
macro_rules! orders {
    ($($($child:literal)+;)+) => {
        [$($([$child, 0, 0]),+),+]
    };
}

/// The orders in which rays visit the children of a node. Where bit k of g says that the ray goes
/// down along axis k, it visits the children `0 xor g`, `1 xor g`, .. `7 xor g`, and the case at
/// `8 * g + i` is `[i xor g, 0, 0]`.
#[tactic(auto, unfolding(crate::specs::CaseLists::octant_order_list))]
pub fn octant_orders() -> Cases<64>
    ensures { result ≡ octant_order_list }
{
    Cases::new(orders! {
        0 1 2 3 4 5 6 7;
        1 0 3 2 5 4 7 6;
        2 3 0 1 6 7 4 5;
        3 2 1 0 7 6 5 4;
        4 5 6 7 0 1 2 3;
        5 4 7 6 1 0 3 2;
        6 7 4 5 2 3 0 1;
        7 6 5 4 3 2 1 0;
    })
}
