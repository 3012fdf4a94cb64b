// A slot: the word of a vertex as far as its pages have come, with the bits still missing above it.
ghost use Rattle.std.specs.Prelude.{◌≡◌, ◌+◌, ◌-◌, ◌*◌, ◌/◌, ◌%◌, ◌^◌, ◌≤◌, ◌<◌};
ghost use Rattle.bdz_image.specs.Feed.{put_low, put_high, taken_of, taken_bits, taken_low, taken_high, cut_of};

use super::bits::{bits_at, join, low_bits};
use bdz_base::width::Width;

// How many bits of the word at v lie in its first page.
pub(crate) fn cut_of(v: u32, width: Width) -> u32
    ensures { result ≡ cut_of width.bits v }
{
    let bits = width.bits() as u64;
    bits.min(32768 - v as u64 * bits % 32768) as u32
}

// old, with its k lowest bits replaced by x.
fn put_low(old: u64, x: u64, k: u32) -> u64
    requires { (old < 2 ^ 32) × (x < 2 ^ k) × (k ≤ 32) }
    ensures { (result ≡ put_low old x k) × (result < 2 ^ 32) }
{
    join(x, old >> k, k)
}

// old, with its bits above the k lowest replaced by x.
fn put_high(old: u64, x: u64, k: u32) -> u64
    requires { (x < 2 ^ (32 - k)) × (k ≤ 32) }
    ensures { (result ≡ put_high old x k) × (result < 2 ^ 32) }
{
    join(low_bits(old, k), x, k)
}

// The slot after the k lowest bits of its word came, which a page has from the bit `at` on.
fn take_bits(bytes: &[u8], at: u64, k: u32, slot: u64) -> u64
    requires { k ≤ 32 }
    ensures { result ≡ taken_bits k bytes.now at slot }
{
    let x = bits_at(bytes, at, k) as u64;
    join(
        put_low(slot & 0xffff_ffff, x, k),
        put_low(slot >> 32, 0, k),
        32,
    )
}

// The slot after the first page of its word came.
fn take_low(bytes: &[u8], v: u32, width: Width, slot: u64) -> u64
    ensures { result ≡ taken_low width.bits bytes.now v slot }
{
    let at = v as u64 * width.bits() as u64 % 32768;
    take_bits(bytes, at, cut_of(v, width), slot)
}

// The slot after the next page came.
fn take_high(bytes: &[u8], v: u32, width: Width, slot: u64) -> u64
    ensures { result ≡ taken_high width.bits bytes.now v slot }
{
    let k = cut_of(v, width);
    let x = bits_at(bytes, 0, width.bits() - k) as u64;
    join(
        put_high(slot & 0xffff_ffff, x, k),
        put_high(slot >> 32, 0, k),
        32,
    )
}

// The slot of the word at v after a page came. Most words lie in one page, and their width is that of all: a loop makes
// its masks once.
pub(crate) fn slot_take(page: u32, bytes: &[u8], v: u32, width: Width, slot: u64) -> u64
    ensures { result ≡ taken_of width.bits page bytes.now v slot }
{
    let bits = width.bits();
    let bit = v as u64 * bits as u64;
    let first = bit / 32768;
    if page as u64 == first {
        if bit % 32768 + bits as u64 <= 32768 {
            return take_bits(bytes, bit % 32768, bits, slot);
        }
        return take_low(bytes, v, width, slot);
    }
    if page as u64 == first + 1 {
        return take_high(bytes, v, width, slot);
    }
    slot
}
