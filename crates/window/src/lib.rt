// The checksums of all tails of a part: of the whole part, of all but its first byte, and so on down to none. Two of them
// are equal exactly if the bytes between have the checksum 0, as those of a frame have with its three checksum bytes. So one
// pass over a part decides every candidate in it.
//
// A byte adds to the checksum of its tail what it is times a weight: the weight of the last byte, moved on by eight bits for
// each byte behind it. Products are left unreduced in a running sum, and the sum is reduced where a checksum is stored.
#![tactic(auto)]

ghost use Rattle.std.specs.Prelude.{◌≡◌, ◌*◌, ◌^◌, ◌≤◌, ◌<◌, length};
ghost use Rattle.bits.specs.Onto.{onto};
ghost use Rattle.bits.specs.Crc.{crc_byte};
ghost use Rattle.window.specs.Tails.{tails, stored};
ghost use Rattle.window.specs.Steps.{times, low, Weights, Multiplied, Products};

mod weights;

// Stores the checksums of the tails at the front of the output, one more than the part has bytes. An output with no room
// for them stays as it is. Up to 4,096 bytes the products are taken first, each by itself: several at once.
pub fn tails(part: &[u8], out: &mut [u32])
    ensures { out.new ≡ stored part.now out.old }
{
    if out.len() <= part.len() {
        return;
    }
    if 4096 < part.len() {
        fill(part, out);
        return;
    }
    let table = weights::WEIGHTS;
    products(part, &table, out);
    add_up(part, out);
}

// Stores the product of each byte with its weight.
fn products(part: &[u8], weights: &[u32; 4096], out: &mut [u32])
    requires { (length part.now ≤ 4096) × (length part.now < length out.old) × Weights weights.now }
    ensures { Products part.now out.old out.new }
{
    let first = 4096 - part.len();
    for k in 0..part.len() {
        out[k] = times(u32::from(part[k]), weights[first + k]);
    }
}

// Adds up the products, from the last to the first, and stores each sum reduced.
fn add_up(part: &[u8], out: &mut [u32])
    requires { (length part.now < length out.old) × Multiplied part.now out.old }
    ensures { out.new ≡ onto (tails part.now) out.old }
{
    let mut sum: u32 = 0;
    out[part.len()] = 0;
    for k in (0..part.len()).rev() {
        sum = sum ^ out[k];
        out[k] = low(sum);
    }
}

// The same of a longer part where there is room, from the last tail to the first.
fn fill(part: &[u8], out: &mut [u32])
    requires { length part.now < length out.old }
    ensures { out.new ≡ onto (tails part.now) out.old }
{
    let mut weight: u32 = 0x86_4CFB;
    let mut sum: u32 = 0;
    out[part.len()] = 0;
    for k in (0..part.len()).rev() {
        let product = times(u32::from(part[k]), weight);
        sum = sum ^ product;
        out[k] = low(sum);
        weight = low(weight << 8);
    }
}

// A byte times a weight, without carries.
fn times(b: u32, w: u32) -> u32
    requires { w < 2 ^ 24 }
    ensures { result ≡ times b w }
{
    (b % 2 * w)
        ^ ((b >> 1) % 2 * (w << 1))
        ^ ((b >> 2) % 2 * (w << 2))
        ^ ((b >> 3) % 2 * (w << 3))
        ^ ((b >> 4) % 2 * (w << 4))
        ^ ((b >> 5) % 2 * (w << 5))
        ^ ((b >> 6) % 2 * (w << 6))
        ^ ((b >> 7) % 2 * (w << 7))
}

// A number reduced to 24 bits: what the four bits above bit 28 and the four above bit 24 add to the rest.
fn low(x: u32) -> u32
    ensures { result ≡ low x }
{
    (x % 0x100_0000) ^ (upper(x >> 28) ^ lower((x >> 24) % 16))
}

// What the upper four bits of a byte add to a checksum of 0. As a `match` the numbers lie in the program's read-only data.
fn upper(k: u32) -> u32
    requires { k < 16 }
    ensures { result ≡ crc_byte 0 (k * 16) }
{
    match k {
        0 => 0x00_0000,
        1 => 0xC5_4E89,
        2 => 0x0C_D1E9,
        3 => 0xC9_9F60,
        4 => 0x19_A3D2,
        5 => 0xDC_ED5B,
        6 => 0x15_723B,
        7 => 0xD0_3CB2,
        8 => 0x33_47A4,
        9 => 0xF6_092D,
        10 => 0x3F_964D,
        11 => 0xFA_D8C4,
        12 => 0x2A_E476,
        13 => 0xEF_AAFF,
        14 => 0x26_359F,
        _ => 0xE3_7B16,
    }
}

// What the lower four bits add.
fn lower(k: u32) -> u32
    requires { k < 16 }
    ensures { result ≡ crc_byte 0 k }
{
    match k {
        0 => 0x00_0000,
        1 => 0x86_4CFB,
        2 => 0x8A_D50D,
        3 => 0x0C_99F6,
        4 => 0x93_E6E1,
        5 => 0x15_AA1A,
        6 => 0x19_33EC,
        7 => 0x9F_7F17,
        8 => 0xA1_8139,
        9 => 0x27_CDC2,
        10 => 0x2B_5434,
        11 => 0xAD_18CF,
        12 => 0x32_67D8,
        13 => 0xB4_2B23,
        14 => 0xB8_B2D5,
        _ => 0x3E_FE2E,
    }
}
