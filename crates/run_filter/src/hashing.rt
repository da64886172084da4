// The hash XXH64, with seed 0.
ghost use Rattle.std.specs.Prelude.{◌≡◌, ◌+◌, ◌*◌, ◌/◌, ◌%◌, ◌<◌, ◌≤◌, ◌∷◌, [], length, drop, fold, bit_xor};
ghost use Rattle.run_filter.specs.Xxh64.{round, merge, lane, lanes, gathered, with_eights, with_four, avalanche};
ghost use Rattle.run_filter.specs.Xxh64.{word64, word32};
ghost use Rattle.run_filter.specs.Xxh64.{mix8, mix4, mix1, mixed, stripes_hash, xxh64};

const P1: u64 = 0x9E37_79B1_85EB_CA87;

const P2: u64 = 0xC2B2_AE3D_27D4_EB4F;

const P3: u64 = 0x1656_67B1_9E37_79F9;

const P4: u64 = 0x85EB_CA77_C2B2_AE63;

const P5: u64 = 0x27D4_EB2F_1656_67C5;

fn word64(bytes: &[u8], at: usize) -> u64
    requires { at + 8 ≤ length bytes.now }
    ensures { result ≡ word64 bytes.now at }
{
    let low = [bytes[at], bytes[at + 1], bytes[at + 2], bytes[at + 3]];
    let high = [bytes[at + 4], bytes[at + 5], bytes[at + 6], bytes[at + 7]];
    u64::from(u32::from_le_bytes(low)) + (u64::from(u32::from_le_bytes(high)) << 32)
}

fn word32(bytes: &[u8], at: usize) -> u64
    requires { at + 4 ≤ length bytes.now }
    ensures { result ≡ word32 bytes.now at }
{
    u64::from(u32::from_le_bytes([bytes[at], bytes[at + 1], bytes[at + 2], bytes[at + 3]]))
}

fn round(sum: u64, word: u64) -> u64
    ensures { result ≡ round sum word }
{
    sum.wrapping_add(word.wrapping_mul(P2))
        .rotate_left(31)
        .wrapping_mul(P1)
}

fn merge(hash: u64, sum: u64) -> u64
    ensures { result ≡ merge hash sum }
{
    (hash ^ round(0, sum)).wrapping_mul(P1).wrapping_add(P4)
}

// The sum of a lane over so many stripes of 32 bytes.
fn lane(bytes: &[u8], first: usize, start: u64, stripes: usize) -> u64
    requires within { stripes * 32 ≤ length bytes.now }
    requires first { first + 8 ≤ 32 }
    ensures { result ≡ lane bytes.now first start stripes }
{
    let mut sum = start;
    for i in 0..stripes {
        sum = round(sum, word64(bytes, 32 * i + first));
    }
    sum
}

fn lanes(bytes: &[u8], stripes: usize) -> [u64; 4]
    requires { stripes * 32 ≤ length bytes.now }
    ensures { result ≡ lanes bytes.now stripes }
{
    [
        lane(bytes, 0, P1.wrapping_add(P2), stripes),
        lane(bytes, 8, P2, stripes),
        lane(bytes, 16, 0, stripes),
        lane(bytes, 24, 0u64.wrapping_sub(P1), stripes),
    ]
}

fn gathered(sums: [u64; 4]) -> u64
    ensures { result ≡ gathered sums }
{
    let [a, b, c, d] = sums;
    let all = a
        .rotate_left(1)
        .wrapping_add(b.rotate_left(7))
        .wrapping_add(c.rotate_left(12))
        .wrapping_add(d.rotate_left(18));
    merge(merge(merge(merge(all, a), b), c), d)
}

fn mix8(hash: u64, word: u64) -> u64
    ensures { result ≡ mix8 hash word }
{
    (hash ^ round(0, word))
        .rotate_left(27)
        .wrapping_mul(P1)
        .wrapping_add(P4)
}

fn mix4(hash: u64, word: u64) -> u64
    ensures { result ≡ mix4 hash word }
{
    (hash ^ word.wrapping_mul(P1))
        .rotate_left(23)
        .wrapping_mul(P2)
        .wrapping_add(P3)
}

fn mix1(hash: u64, byte: u8) -> u64
    ensures { result ≡ mix1 hash byte }
{
    (hash ^ u64::from(byte).wrapping_mul(P5))
        .rotate_left(11)
        .wrapping_mul(P1)
}

fn with_eights(hash: u64, bytes: &[u8], count: usize) -> u64
    requires { count * 8 ≤ length bytes.now }
    ensures { result ≡ with_eights hash bytes.now count }
{
    let mut hash = hash;
    for i in 0..count {
        hash = mix8(hash, word64(bytes, 8 * i));
    }
    hash
}

fn with_ones(hash: u64, bytes: &[u8]) -> u64
    ensures { result ≡ fold mix1 hash bytes.now }
{
    bytes.iter().fold(hash, |hash, byte| mix1(hash, *byte))
}

// The hash with up to seven bytes.
fn with_few(hash: u64, bytes: &[u8]) -> u64
    ensures { result ≡ with_four hash bytes.now }
{
    if bytes.len() < 4 {
        return with_ones(hash, bytes);
    }
    with_ones(mix4(hash, word32(bytes, 0)), &bytes[4..])
}

fn avalanche(hash: u64) -> u64
    ensures { result ≡ avalanche hash }
{
    let hash = (hash ^ (hash >> 33)).wrapping_mul(P2);
    let hash = (hash ^ (hash >> 29)).wrapping_mul(P3);
    hash ^ (hash >> 32)
}

fn mixed(hash: u64, bytes: &[u8]) -> u64
    ensures { result ≡ mixed hash bytes.now }
{
    let eights = bytes.len() / 8;
    with_few(with_eights(hash, bytes, eights), &bytes[8 * eights..])
}

// The hash of the whole stripes.
fn stripes_hash(bytes: &[u8], stripes: usize) -> u64
    requires { stripes * 32 ≤ length bytes.now }
    ensures { result ≡ stripes_hash bytes.now stripes }
{
    if stripes == 0 {
        return P5;
    }
    gathered(lanes(bytes, stripes))
}

/// The hash XXH64 of some bytes, with seed 0.
#[tactic(auto, unfolding(crate::specs::Xxh64::xxh64))]
pub fn xxh64(bytes: &[u8]) -> u64
    ensures { result ≡ xxh64 bytes.now }
{
    let stripes = bytes.len() / 32;
    let hash = stripes_hash(bytes, stripes).wrapping_add(bytes.len() as u64);
    avalanche(mixed(hash, &bytes[32 * stripes..]))
}
