// Ones, super counts and lookups, exported.
ghost use Rattle.std.specs.Prelude.{◌≡◌, ◌%◌, ◌^◌};
ghost use Rattle.bdz_table.specs.Lookup.{LookedUp};
ghost use Rattle.bdz_table.specs.Rank.{ones_between, SuperCounted, ranked_of};
ghost use Rattle.bdz_oracle.specs.Looking.{index_of, ToldLookup};

use super::feeding::record_of;
use super::reading::{number_of, read_keys, room_no};
use bdz_table::lookup::{index_batch, lookup_no};
use bdz_table::view::rank1;

#[unsafe(no_mangle)]
pub extern "C" fn bdz_popcount_bits(occ: &[u8], lo: u64, hi: u64) -> u32
    ensures { result ≡ ones_between occ.now lo hi % 2 ^ 32 }
{
    bdz_table::rank::popcount_bits(occ, lo, hi)
}

#[unsafe(no_mangle)]
pub extern "C" fn bdz_supers_from_occ_bytes(m: u32, occ: &[u8], supers: &mut [u32]) -> u32
    ensures { SuperCounted m occ.now supers.old result supers.new }
{
    number_of(bdz_table::rank::supers_from_occ_bytes(m, occ, supers))
}

// The rank of v, 0 where it is refused.
#[unsafe(no_mangle)]
pub extern "C" fn bdz_rank1(occ: &[u8], supers: &[u32], m: u32, v: u32) -> u32
    ensures { result ≡ (ranked_of m occ.now supers.now v).answer }
{
    rank1(occ, supers, m, v).unwrap_or(0)
}

// The number of its refusal.
#[unsafe(no_mangle)]
pub extern "C" fn bdz_rank1_no(occ: &[u8], supers: &[u32], m: u32, v: u32) -> u32
    ensures { result ≡ (ranked_of m occ.now supers.now v).no }
{
    number_of(rank1(occ, supers, m, v))
}

// The answer for each key, in an index of the assigned kind for 0 and of the compact kind for any other number. 14 where the
// keys have no room, then the lookup's own numbers; all are judged before the keys are read, so a refusal touches nothing.
#[unsafe(no_mangle)]
pub extern "C" fn bdz_index_batch(
    keys: &[u8],
    compact: u32,
    n: u32,
    m: u32,
    seed: u64,
    modulus: u32,
    table: &[u32],
    occ: &[u8],
    supers: &[u32],
    key_room: &mut [u64],
    out: &mut [u32],
) -> u32
    ensures { ToldLookup (index_of compact n m seed modulus) keys.now table.now occ.now supers.now key_room.old out.old result key_room.new out.new }
{
    let count = keys.len() / 8;
    let index = record_of(compact, n, m, seed, modulus, 0);
    let judged = lookup_no(
        index,
        count,
        table.len(),
        occ.len(),
        supers.len(),
        out.len(),
    );
    if let Err(refusal) = room_no(key_room.len(), count, judged) {
        return u32::from(refusal);
    }
    read_keys(keys, count, key_room);
    number_of(index_batch(index, &key_room[..count], table, occ, supers, out))
}

// The same where the keys are words already.
#[unsafe(no_mangle)]
pub extern "C" fn bdz_index_words(
    keys: &[u64],
    compact: u32,
    n: u32,
    m: u32,
    seed: u64,
    modulus: u32,
    table: &[u32],
    occ: &[u8],
    supers: &[u32],
    out: &mut [u32],
) -> u32
    ensures { LookedUp (index_of compact n m seed modulus) keys.now table.now occ.now supers.now out.old result out.new }
{
    let index = record_of(compact, n, m, seed, modulus, 0);
    number_of(index_batch(index, keys, table, occ, supers, out))
}
