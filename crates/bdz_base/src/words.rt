// Arithmetic on 64-bit words that the language does not supply: a product that wraps, the high half of one, a rotation,
// and the number that bytes make.
ghost use Rattle.std.specs.Prelude.{◌≡◌, ◌+◌, ◌-◌, ◌*◌, ◌/◌, ◌%◌, ◌^◌, ◌<◌, ◌≤◌, length, get_or};
ghost use Rattle.bdz_base.specs.Mix.{rotl};
ghost use Rattle.bdz_base.specs.Pack.{bits_at};

// The product modulo 2^64, from halves of 32 bits. Corresponds to `wrapping_mul`.
pub fn wrapping_mul64(a: u64, b: u64) -> u64
    ensures { result ≡ (a * b) % 2 ^ 64 }
{
    let a0 = a & 0xffff_ffff;
    let a1 = a >> 32;
    let b0 = b & 0xffff_ffff;
    let b1 = b >> 32;
    let cross = (a1 * b0).wrapping_add(a0 * b1);
    (cross << 32).wrapping_add(a0 * b0)
}

// The high 64 bits of a product, from halves of 32 bits. Both factors have 64 bits, so that the compiler makes one multiplication of it.
pub fn high_product(u: u64, v: u64) -> u64
    ensures { result ≡ u * v / 2 ^ 64 }
{
    let u0 = u & 0xffff_ffff;
    let u1 = u >> 32;
    let v0 = v & 0xffff_ffff;
    let v1 = v >> 32;
    let t = u1 * v0 + (u0 * v0 >> 32);
    let w = (t & 0xffff_ffff) + u0 * v1;
    u1 * v1 + (t >> 32) + (w >> 32)
}

// The high 64 bits of h times p: below p, where p is not 0.
pub fn mul_high(h: u64, p: u32) -> u32
    ensures { (result ≡ h * p / 2 ^ 64) × (result ≤ p - 1) }
{
    high_product(h, p as u64) as u32
}

// Corresponds to `rotate_left`, for a count that turns.
pub(crate) fn rotate_left(x: u64, k: u32) -> u64
    requires { (0 < k) × (k < 64) }
    ensures { result ≡ rotl x k }
{
    (x << k) + (x >> (64 - k))
}

// The lowest bits of x, as many as `count` says.
pub(crate) fn low_bits(x: u64, count: u32) -> u64
    requires { count ≤ 32 }
    ensures { (result ≡ x % 2 ^ count) × (result < 2 ^ 32) }
{
    x & ((1u64 << count) - 1)
}

// x above the lowest bits, which acc has.
pub(crate) fn join(acc: u64, x: u64, bits: u32) -> u64
    requires { (acc < 2 ^ bits) × (x < 2 ^ (64 - bits)) × (bits < 64) }
    ensures { result ≡ x * 2 ^ bits + acc }
{
    acc | (x << bits)
}

// The byte at i, or 0 where there is none.
fn byte_at(bytes: &[u8], i: usize) -> u64
    ensures { (result ≡ get_or bytes.now i 0) × (result < 2 ^ 8) }
{
    bytes.get(i).map_or(0, |&byte| u64::from(byte))
}

// The first eight bytes, all there: given one by one, the compiler reads them at once, and tests nothing.
fn le64_inside(part: &[u8]) -> u64
    requires { 8 ≤ length part.now }
    ensures { result ≡ bits_at 64 part.now 0 }
{
    u64::from_le_bytes([
        part[0], part[1], part[2], part[3], part[4], part[5], part[6], part[7],
    ])
}

// The same where some may be missing. Byte by byte: a copy of so many as are there would be a call in each loop that
// reads words, and costs the feed a tenth.
fn le64_across(part: &[u8]) -> u64
    ensures { result ≡ bits_at 64 part.now 0 }
{
    let mut acc: u64 = 0;
    for i in 0usize..8 {
        acc = join(acc, byte_at(part, i), (i * 8) as u32);
    }
    acc
}

// The number of the 8 bytes from `at` on, lowest first. A byte that is not there counts as 0.
pub fn le64(bytes: &[u8], at: usize) -> u64
    ensures { result ≡ bits_at 64 bytes.now (at * 8) }
{
    let len = bytes.len();
    // the case of nearly every word first, by one test: a loop over words then loses less to where it comes to lie
    if at.saturating_add(8) <= len {
        return le64_inside(&bytes[at..]);
    }
    if len <= at {
        return 0;
    }
    le64_across(&bytes[at..])
}
