//! The tables of the question whether a triangle and a cube share a point.

ghost use Rattle.std.specs.Prelude.{◌≡◌};
ghost use Rattle.case_table.specs.CaseLists.{axis_case_list, row_pair_list};

use crate::cases::Cases;

/// Entries by their first numbers, each with the second numbers that go with it.
macro_rules! pairs {
    ($($i:literal: $($j:literal)+;)+) => {
        [$($([$i, $j, 0]),+),+]
    };
}

/// The unit vectors, the normal, and each edge with each unit vector.
macro_rules! axes {
    (units $($unit:literal)+; normal; edges $($edge:literal: $($across:literal)+;)+) => {
        [$([0, 0, $unit],)+ [1, 0, 0], $($([2, $edge, $across]),+),+]
    };
}

/// Each two of the nine rows, as `[i, j, 0]` with i below j, in order: (0, 1), (0, 2), .. (7, 8).
#[tactic(auto, unfolding(crate::specs::CaseLists::row_pair_list))]
pub fn row_pairs() -> Cases<36>
    ensures { result ≡ row_pair_list }
{
    Cases::new(pairs! {
        0: 1 2 3 4 5 6 7 8;
        1: 2 3 4 5 6 7 8;
        2: 3 4 5 6 7 8;
        3: 4 5 6 7 8;
        4: 5 6 7 8;
        5: 6 7 8;
        6: 7 8;
        7: 8;
    })
}

/// The axes that may separate a triangle and a cube (Schwarz, Seidel 2010), in order: `[0, 0, k]` is
/// the unit vector k, `[1, 0, 0]` the triangle's normal, and `[2, i, k]` the product of edge i and
/// the unit vector k.
#[tactic(auto, unfolding(crate::specs::CaseLists::axis_case_list))]
pub fn axis_cases() -> Cases<13>
    ensures { result ≡ axis_case_list }
{
    Cases::new(axes! {
        units 0 1 2;
        normal;
        edges
        0: 0 1 2;
        1: 0 1 2;
        2: 0 1 2;
    })
}
