// Bits of a word, cut off and put together.
ghost use Rattle.std.specs.Prelude.{◌≡◌, ◌+◌, ◌*◌, ◌/◌, ◌%◌, ◌^◌, ◌≤◌, ◌<◌};
ghost use Rattle.bdz_base.specs.Pack.{bits_at};

use bdz_base::pack::extract_g_window;

// The 32 lowest bits.
pub(crate) fn low(x: u64) -> u32
    ensures { result ≡ x % 2 ^ 32 }
{
    (x & 0xffff_ffff) as u32
}

// The bits above them.
pub(crate) fn high(x: u64) -> u32
    ensures { result ≡ x / 2 ^ 32 }
{
    (x >> 32) as u32
}

// This and `join` stand in bdz_base too, for its own use: a public function asks nothing of its callers, and testing the
// count would cost at each slot.
//
// The lowest bits of x, as many as `count` says.
pub(crate) fn low_bits(x: u64, count: u32) -> u64
    requires { count ≤ 32 }
    ensures { (result ≡ x % 2 ^ count) × (result < 2 ^ 32) }
{
    x & ((1u64 << count) - 1)
}

// x above the lowest bits, which acc has.
pub(crate) fn join(acc: u64, x: u64, bits: u32) -> u64
    requires { (acc < 2 ^ bits) × (x < 2 ^ 32) × (bits ≤ 32) }
    ensures { result ≡ x * 2 ^ bits + acc }
{
    acc | (x << bits)
}

// So many bits of a part of the table, from the bit `start` on. A byte that is not there counts as 0.
pub(crate) fn bits_at(part: &[u8], start: u64, count: u32) -> u32
    requires { count ≤ 32 }
    ensures { result ≡ bits_at count part.now start }
{
    extract_g_window(part, start, count)
}
