//! Morton codes: the numbers of an octree's nodes, the cubes that they stand for, and runs of them.
#![tactic(auto)]

mod codes;
mod cubes;
mod laws;
mod runs;

pub use codes::{decode, encode};
pub use cubes::cube_of;
pub use laws::{
    children_are_in_order, children_are_met_with_their_parent, children_cover_their_parent,
    codes_name_parents, filled_cells_are_one_list, leading_zeros_change_nothing, nodes_are_ranges,
    parents_halve_coordinates,
};
pub use runs::{Run, aligned_run};

#[cfg(test)]
mod tests {
    use super::*;
    use svo_base::{Cube, Grid};

    /// The code by its definition, a bit of each coordinate at a time.
    fn plain_code(x: u32, y: u32, z: u32) -> u64 {
        let mut code = 0;
        for digit in 0..20u32 {
            let bits = ((x >> digit) & 1) | ((y >> digit) & 1) << 1 | ((z >> digit) & 1) << 2;
            code |= u64::from(bits) << (3 * digit);
        }
        code
    }

    #[test]
    fn codes_of_coordinates(rt: HostRuntime) {
        let cases = [
            ((0, 0, 0), 0),
            ((2, 1, 1), 14),
            ((3, 3, 3), 63),
            ((1, 0, 0), 1),
            ((0, 1, 0), 2),
            ((0, 0, 1), 4),
            ((1048575, 1048575, 1048575), (1 << 60) - 1),
        ];
        for ((x, y, z), code) in cases {
            assert_eq!(rt; encode(x, y, z), code, "the code of ({x}, {y}, {z})");
            assert_eq!(rt; decode(code), (x, y, z), "the coordinates of {code}");
        }
    }

    #[test]
    fn codes_by_the_definition(rt: HostRuntime) {
        let cases = [
            (699050, 349525, 1000000),
            (65537, 131071, 262143),
            (1048574, 524288, 4095),
            (1, 1024, 1048575),
        ];
        for (x, y, z) in cases {
            let code = encode(x, y, z);
            assert_eq!(rt; code, plain_code(x, y, z), "the code of ({x}, {y}, {z})");
            assert_eq!(rt; decode(code), (x, y, z), "the coordinates of {code}");
        }
    }

    #[test]
    fn cubes_of_nodes(rt: HostRuntime) {
        let grid = Grid::new(2, [0, 0, 0], 1).expect(&rt, "a grid");
        let shifted = Grid::new(2, [-5, 7, 100], 3).expect(&rt, "a grid");
        let cases = [
            (grid, 1, 3, [2, 2, 0], [4, 4, 2]),
            (grid, 0, 0, [0, 0, 0], [4, 4, 4]),
            (grid, 2, 14, [2, 1, 1], [3, 2, 2]),
            (shifted, 2, 14, [1, 10, 103], [4, 13, 106]),
            (shifted, 1, 4, [-5, 7, 106], [1, 13, 112]),
        ];
        for (grid, level, code, lo, hi) in cases {
            assert!(rt; level <= grid.depth(), "a level of the grid");
            assert_eq!(rt;
                cube_of(&grid, level, code),
                Cube { lo, hi },
                "the cube of code {code} of level {level}"
            );
        }
    }

    #[test]
    fn greatest_runs(rt: HostRuntime) {
        let cases = [
            ((0, 7, 2), (2, 0)),
            ((8, 64, 2), (1, 1)),
            ((0, 64, 2), (0, 0)),
            ((0, 8, 2), (1, 0)),
            ((7, 64, 2), (2, 7)),
            ((16, 23, 2), (2, 16)),
            ((64, 512, 3), (1, 1)),
        ];
        for ((from, to, depth), (level, code)) in cases {
            assert_eq!(rt;
                aligned_run(from, to, depth),
                Run { level, code },
                "the run of {from}..{to} at depth {depth}"
            );
        }
    }
}
