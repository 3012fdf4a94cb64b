// Words packed at a width, low bits first, and read back.
ghost use Rattle.std.specs.Prelude.{◌≡◌, ◌+◌, ◌*◌, ◌/◌, ◌%◌, ◌^◌, ◌<◌, ◌≤◌, min, ◌++◌, length, take, drop, nat_lt};
ghost use Rattle.bdz_base.specs.Buffer.{over};
ghost use Rattle.bdz_base.specs.Sizes.{table_bytes};
ghost use Rattle.bdz_base.specs.Pack.{bytes_of, pack_of, bits_at, word_at, Packed};
ghost use Rattle.bdz_base.specs.Carry.{Gave};
ghost use Rattle.bdz_base.specs.Refusal.{number_of};

use super::refusal::Refusal;
use super::width::Width;
use super::words::{join, le64, low_bits};

// What has come in and not gone out: the lowest `bits` bits of acc, which belong at the byte `at`.
#[derive(Clone, Copy)]
struct Carry {
    acc: u64,
    bits: u32,
    at: usize,
}

fn low_byte(x: u64) -> u8
    ensures { result ≡ x % 2 ^ 8 }
{
    (x & 0xff) as u8
}

// A word comes in above, cut to the width.
fn take_word(carry: Carry, word: u32, width: Width) -> Carry
    requires { (carry.acc < 2 ^ carry.bits) × (carry.bits < 32) }
    ensures { (result.acc ≡ word % 2 ^ width.bits * 2 ^ carry.bits + carry.acc)
        × (result.bits ≡ carry.bits + width.bits) × (result.at ≡ carry.at) }
{
    let bits = carry.bits;
    Carry {
        acc: join(carry.acc, low_bits(word as u64, width.bits()), bits),
        bits: bits + width.bits(),
        at: carry.at,
    }
}

// Four bytes go out below, which the compiler writes at once.
fn give_four(carry: Carry, body: &mut [u8]) -> Carry
    requires { (32 ≤ carry.bits) × (carry.at + 4 ≤ length body.old) }
    ensures { Gave 4 carry body.old result body.new }
{
    let acc = carry.acc;
    let at = carry.at;
    body[at..at + 4].copy_from_slice(&acc.to_le_bytes()[..4]);
    Carry {
        acc: acc >> 32,
        bits: carry.bits - 32,
        at: at + 4,
    }
}

// The four bytes, once they are there.
fn give_fours(carry: Carry, body: &mut [u8]) -> Carry
    requires { (carry.bits < 64) × (carry.at + carry.bits / 32 * 4 ≤ length body.old) }
    ensures { Gave (carry.bits / 32 * 4) carry body.old result body.new }
{
    if carry.bits < 32 {
        return carry;
    }
    give_four(carry, body)
}

// The whole bytes go out below, one by one.
fn give_bytes(carry: Carry, body: &mut [u8]) -> Carry
    requires { carry.at + carry.bits / 8 ≤ length body.old }
    ensures { Gave (carry.bits / 8) carry body.old result body.new }
{
    let end = carry.at + (carry.bits / 8) as usize;
    let mut acc = carry.acc;
    for at in carry.at..end {
        body[at] = low_byte(acc);
        acc >>= 8;
    }
    Carry {
        acc,
        bits: carry.bits % 8,
        at: end,
    }
}

// What is left of the carry: whole bytes, and one that is padded with zeros.
#[tactic(auto, using(crate::proofs::Packing::rest_whole, crate::proofs::Packing::rest_padded))]
fn give_rest(carry: Carry, body: &mut [u8])
    requires { carry.at + (carry.bits + 7) / 8 ≤ length body.old }
    ensures { body.new ≡ take carry.at body.old ++ (bytes_of ((carry.bits + 7) / 8) carry.acc ++ drop (carry.at + (carry.bits + 7) / 8) body.old) }
{
    let left = give_bytes(carry, body);
    let acc = left.acc;
    let bits = left.bits;
    let at = left.at;
    if bits > 0 {
        body[at] = low_byte(acc);
    }
}

// The words into the first bytes of the body.
fn pack_words(g: &[u32], width: Width, body: &mut [u8])
    requires { table_bytes width.bits (length g.now) ≤ length body.old }
    ensures { body.new ≡ over (pack_of width.bits g.now) body.old }
{
    let mut carry = Carry {
        acc: 0,
        bits: 0,
        at: 0,
    };
    for &word in g {
        carry = give_fours(take_word(carry, word, width), body);
    }
    give_rest(carry, body);
}

// Whether so many words take more than so many bytes. It never multiplies what it has not bounded.
fn lacks_room(words: usize, width: Width, bytes: usize) -> bool
    ensures { result ≡ nat_lt bytes (table_bytes width.bits words) }
{
    let w = width.bits() as usize;
    let eights = words / 8;
    if eights > bytes / w {
        return true;
    }
    let left = bytes - eights * w;
    left < (words % 8 * w + 7) / 8
}

// Packs the words into the first bytes of the body. 10 for a width of 0 or over 32, 14 where the body is too short; then it stays as it is.
pub fn pack_g(g: &[u32], width: u32, body: &mut [u8]) -> Result<(), Refusal>
    ensures { Packed width g.now body.old (number_of result) body.new }
{
    let width = Width::new(width)?;
    if lacks_room(g.len(), width, body.len()) {
        return Err(Refusal::NoRoom);
    }
    pack_words(g, width, body);
    Ok(())
}

// As many bits of a part of the table as the width says, 32 at most, from the bit `start` on. A byte that is not there counts as 0.
pub fn extract_g_window(part: &[u8], start: u64, width: u32) -> u32
    ensures { result ≡ bits_at (min width 32) part.now start }
{
    low_bits(
        le64(part, (start / 8) as usize) >> (start % 8),
        width.min(32),
    ) as u32
}

// The word at v of a packed table. A byte that is not there counts as 0.
pub fn unpack_g_at(body: &[u8], v: u32, width: u32) -> u32
    ensures { result ≡ word_at width body.now v }
{
    extract_g_window(body, v as u64 * width as u64, width)
}
