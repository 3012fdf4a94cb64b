// Ones of an occupancy, the super counts, and the ranks that they give.
ghost use Rattle.std.specs.Prelude.{◌≡◌, ◌+◌, ◌-◌, ◌*◌, ◌/◌, ◌%◌, ◌^◌, ◌<◌, ◌≤◌, min, length};
ghost use Rattle.std.specs.Int.Count.{ones_in};
ghost use Rattle.bdz_base.specs.Buffer.{over};
ghost use Rattle.bdz_base.specs.Refusal.{number_of};
ghost use Rattle.bdz_base.specs.Sizes.{super_count};
ghost use Rattle.bdz_table.specs.Rank.{ones_between, super_counts, supers_no, SuperCounted, rank_with, ranked_of};
ghost use Rattle.bdz_table.specs.Told.{told_answer};

use bdz_base::refusal::Refusal;
use bdz_base::size::{occ_packed_bytes, super_count};

// The ones of the bits of a byte from `bit` on, as many as `take`.
fn ones_in_byte(byte: u8, bit: u32, take: u32) -> u32
    requires { (bit ≤ 7) × (take ≤ 8) }
    ensures { result ≡ ones_in take (byte / 2 ^ bit) }
{
    let mask = ((1u32 << take) - 1) as u8;
    u8::count_ones((byte >> bit) & mask)
}

// The bits that one turn takes: those left of the byte, or those left before the end.
fn bits_taken(b: u64, end: u64) -> u64
    requires { b < end }
    ensures { result ≡ min (8 - b % 8) (end - b) }
{
    (8 - b % 8).min(end - b)
}

// hi, or the end of the bytes where that comes before it. Saturating, as bytes * 8 can be more than a u64 holds.
fn end_within(bytes: usize, hi: u64) -> u64
    ensures { result ≡ min hi (bytes * 8) }
{
    hi.min((bytes as u64).saturating_mul(8))
}

// The ones of an occupancy from lo on, below hi, modulo 2^32. A byte that is not there has none.
pub fn popcount_bits(occ: &[u8], lo: u64, hi: u64) -> u32
    ensures { result ≡ ones_between occ.now lo hi % 2 ^ 32 }
{
    let end = end_within(occ.len(), hi);
    let mut n: u32 = 0;
    let mut b = lo;
    // a `while`, as the first and the last turn can take less than a byte
    while b < end {
        let take = bits_taken(b, end);
        let at = (b / 8) as usize;
        let ones = ones_in_byte(occ[at], (b % 8) as u32, take as u32);
        n = n.wrapping_add(ones);
        b += take;
    }
    n
}

// The refusal of super counts by the lengths of what is lent.
pub(crate) fn supers_no(m: u32, occ: usize, supers: usize) -> Result<(), Refusal>
    ensures { number_of result ≡ supers_no m occ supers }
{
    if (occ as u64) < occ_packed_bytes(m) {
        return Err(Refusal::OccTruncated);
    }
    if (supers as u64) < super_count(m) {
        return Err(Refusal::NoRoom);
    }
    Ok(())
}

// The end of a block of 512 bits, or m where that comes before it.
fn block_end(i: u64, m: u32) -> u64
    requires { i < super_count m }
    ensures { result ≡ min ((i + 1) * 512) m }
{
    ((i + 1) * 512).min(m as u64)
}

// The super counts where there is room for them.
fn fill_supers(m: u32, occ: &[u8], supers: &mut [u32])
    requires { super_count m ≤ length supers.old }
    ensures { supers.new ≡ over (super_counts m occ.now) supers.old }
{
    let count = super_count(m);
    let mut acc: u32 = 0;
    for i in 0..count {
        supers[i as usize] = acc;
        acc += popcount_bits(occ, i * 512, block_end(i, m));
    }
}

// The super counts of an occupancy of m bits. 12, 14.
pub fn supers_from_occ_bytes(m: u32, occ: &[u8], supers: &mut [u32]) -> Result<(), Refusal>
    ensures { SuperCounted m occ.now supers.old (number_of result) supers.new }
{
    supers_no(m, occ.len(), supers.len())?;
    fill_supers(m, occ, supers);
    Ok(())
}

// The ones before the block of v, as lent, and those of the block below v.
fn rank_below(occ: &[u8], supers: &[u32], v: u32) -> u32
    requires { v / 512 < length supers.now }
    ensures { result ≡ rank_with occ.now supers.now v }
{
    let block = v / 512;
    let at = block as usize;
    let start = block * 512;
    let ones = popcount_bits(occ, start as u64, v as u64);
    supers[at].wrapping_add(ones)
}

// The rank of v by the lent super counts. A vertex past m has the rank of m. 12, 14.
pub fn rank_at(occ: &[u8], supers: &[u32], m: u32, v: u32) -> Result<u32, Refusal>
    ensures { told_answer result ≡ ranked_of m occ.now supers.now v }
{
    supers_no(m, occ.len(), supers.len())?;
    Ok(rank_below(occ, supers, v.min(m)))
}
