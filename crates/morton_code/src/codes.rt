//! Morton codes of cells: the bits of three coordinates, taken in turn.

ghost use Rattle.std.specs.Prelude.{◌≡◌, ◌^◌, ◌<◌};
ghost use Rattle.octree_specs.specs.NodeCube.{code_of, coordinate_of};

/// The Morton code of three coordinates of 20 bits each. Each group of three bits of the code has
/// one bit of each: bit 0 that of x, bit 1 that of y and bit 2 that of z.
pub fn encode(x: u32, y: u32, z: u32) -> u64
    requires x { x < 2 ^ 20 }
    requires y { y < 2 ^ 20 }
    requires z { z < 2 ^ 20 }
    ensures code { result ≡ code_of 20 x y z }
    ensures below { result < 2 ^ 60 }
    ensures x { coordinate_of 0 20 result ≡ x }
    ensures y { coordinate_of 1 20 result ≡ y }
    ensures z { coordinate_of 2 20 result ≡ z }
{
    spread(x) | spread(y) << 1 | spread(z) << 2
}

/// The coordinates x, y and z that a Morton code of 60 bits stands for.
pub fn decode(code: u64) -> (u32, u32, u32)
    requires { code < 2 ^ 60 }
    ensures x { result.0 ≡ coordinate_of 0 20 code }
    ensures y { result.1 ≡ coordinate_of 1 20 code }
    ensures z { result.2 ≡ coordinate_of 2 20 code }
    ensures x_below { result.0 < 2 ^ 20 }
    ensures y_below { result.1 < 2 ^ 20 }
    ensures z_below { result.2 < 2 ^ 20 }
    ensures code { code_of 20 result.0 result.1 result.2 ≡ code }
{
    (gather(code), gather(code >> 1), gather(code >> 2))
}

/// The 20 bits of a number, three places apart (a dilated integer: Raman and Wise 2008). Each step
/// halves the blocks that stay together and moves the upper halves up.
fn spread(bits: u32) -> u64
    requires { bits < 2 ^ 20 }
    ensures { result ≡ code_of 20 bits 0 0 }
{
    let by_32 = u64::from(bits);
    let by_16 = (by_32 | by_32 << 32) & 0xffff_0000_0000_ffff;
    let by_8 = (by_16 | by_16 << 16) & 0x00ff_0000_ff00_00ff;
    let by_4 = (by_8 | by_8 << 8) & 0x000f_00f0_0f00_f00f;
    let by_2 = (by_4 | by_4 << 4) & 0x00c3_0c30_c30c_30c3;
    (by_2 | by_2 << 2) & 0x0249_2492_4924_9249
}

/// Every third bit of a number, from bit 0 on, close together. Each step joins two blocks.
fn gather(spread: u64) -> u32
    ensures value { result ≡ coordinate_of 0 20 spread }
    ensures below { result < 2 ^ 20 }
{
    let by_1 = spread & 0x0249_2492_4924_9249;
    let by_2 = (by_1 | by_1 >> 2) & 0x00c3_0c30_c30c_30c3;
    let by_4 = (by_2 | by_2 >> 4) & 0x000f_00f0_0f00_f00f;
    let by_8 = (by_4 | by_4 >> 8) & 0x00ff_0000_ff00_00ff;
    let by_16 = (by_8 | by_8 >> 16) & 0xffff_0000_0000_ffff;
    ((by_16 | by_16 >> 32) & 0xffff_ffff) as u32
}
