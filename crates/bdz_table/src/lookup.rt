// The lookup of many keys in an index whose table is lent as words.
ghost use Rattle.std.specs.Prelude.{◌≡◌, ℕ, ◌<◌, ◌≤◌, length, slice_index};
ghost use Rattle.bdz_base.specs.Buffer.{tab, over};
ghost use Rattle.bdz_base.specs.Refusal.{number_of};
ghost use Rattle.bdz_base.specs.Sizes.{occupancy_bytes, super_count};
ghost use Rattle.bdz_base.specs.Verts.{Below};
ghost use Rattle.bdz_table.specs.Keys.{listed};
ghost use Rattle.bdz_table.specs.Lookup.{room_no, lookup_no, sum_of, assigned_answer, compact_from, compact_answer, one_answer, few_answer, answers_of, LookedUp, many_from, finish_no, finish_of};
ghost use Rattle.bdz_table.specs.Told.{told_answer};

use super::index::Index;
use super::view::rank1;
use bdz_base::refusal::Refusal;
use bdz_base::size::{occ_packed_bytes, super_count};
use bdz_base::verts::{Kind, Verts, hash_verts};

// The refusal of an index of two keys or more by the lengths of what is lent.
fn room_no(kind: Kind, m: u32, table: usize, occ: usize, supers: usize) -> Result<(), Refusal>
    ensures { number_of result ≡ room_no kind m table occ supers }
{
    match kind {
        Kind::Assigned => {
            if table < m as usize {
                return Err(Refusal::NoRoom);
            }
            Ok(())
        }
        Kind::Compact => {
            if (occ as u64) < occ_packed_bytes(m) {
                return Err(Refusal::OccTruncated);
            }
            if table < m as usize {
                return Err(Refusal::NoRoom);
            }
            if (supers as u64) < super_count(m) {
                return Err(Refusal::NoRoom);
            }
            Ok(())
        }
    }
}

// The refusal of a lookup by the lengths of what is lent.
pub fn lookup_no(
    index: Index,
    keys: usize,
    table: usize,
    occ: usize,
    supers: usize,
    out: usize,
) -> Result<(), Refusal>
    ensures { number_of result ≡ lookup_no index keys table occ supers out }
{
    if keys == 0 {
        return Ok(());
    }
    if out < keys {
        return Err(Refusal::NoRoom);
    }
    if index.n < 2 {
        return Ok(());
    }
    if index.m == 0 {
        return Err(Refusal::ZeroModulus);
    }
    if index.modulus == 0 {
        return Err(Refusal::ZeroModulus);
    }
    let kind = index.kind;
    room_no(kind, index.m, table, occ, supers)
}

// The sum of a key's words modulo 2^32.
fn sum_words(table: &[u32], v: Verts) -> u32
    requires { Below (length table.now) v }
    ensures { result ≡ sum_of table.now (listed v) }
{
    let a = v.a as usize;
    let b = v.b as usize;
    let c = v.c as usize;
    table[a].wrapping_add(table[b]).wrapping_add(table[c])
}

// The first, second or third vertex.
fn vertex_at(v: Verts, i: u32) -> u32
    requires { i < 3 }
    ensures { result ≡ slice_index (listed v) i }
{
    if i == 0 {
        return v.a;
    }
    if i == 1 {
        return v.b;
    }
    v.c
}

fn assigned_answer(key: u64, seed: u64, m: u32, modulus: u32, table: &[u32]) -> u32
    requires { (0 < m) × (0 < modulus) × (m ≤ length table.now) }
    ensures { result ≡ assigned_answer seed m modulus table.now key }
{
    let v = hash_verts(key, seed, m, Kind::Assigned);
    sum_words(table, v) % modulus
}

// The compact answer from the sum of a key's words.
fn compact_finish(sum: u32, v: Verts, m: u32, n: u32, occ: &[u8], supers: &[u32]) -> u32
    requires { (0 < n) × Below m v × (occupancy_bytes m ≤ length occ.now) × (super_count m ≤ length supers.now) }
    ensures { result ≡ compact_from n occ.now supers.now (listed v) sum }
{
    let at = vertex_at(v, sum % 3);
    let rank = rank1(occ, supers, m, at).unwrap();
    rank.min(n - 1)
}

fn compact_answer(
    key: u64,
    seed: u64,
    m: u32,
    n: u32,
    table: &[u32],
    occ: &[u8],
    supers: &[u32],
) -> u32
    requires { (0 < n) × (0 < m) × (m ≤ length table.now) × (occupancy_bytes m ≤ length occ.now) × (super_count m ≤ length supers.now) }
    ensures { result ≡ compact_answer seed m n table.now occ.now supers.now key }
{
    let v = hash_verts(key, seed, m, Kind::Compact);
    compact_finish(sum_words(table, v), v, m, n, occ, supers)
}

// Each key's answer, into the first words of out: `of` is any numbering that the closure's answers follow.
fn answer_each<F: Fn(u64) -> u32>(keys: &[u64], out: &mut [u32], answer: F)
    requires callable { (i : ℕ) → i < length keys.now → F.pre answer (slice_index keys.now i) }
    requires room { length keys.now ≤ length out.old }
    ensures { (of : ℕ → ℕ)
        → ((i r : ℕ) → i < length keys.now → F.post answer (slice_index keys.now i) r → r ≡ of i)
        → out.new ≡ over (tab of (length keys.now)) out.old }
{
    for (i, &key) in keys.iter().enumerate() {
        out[i] = answer(key);
    }
}

// The word that an index of one key stores.
fn first_word(table: &[u32]) -> u32
    ensures { result ≡ slice_index table.now 0 }
{
    table.first().copied().unwrap_or(0)
}

// The answer of an index of one key.
fn one_key_index(kind: Kind, word: u32) -> u32
    ensures { result ≡ one_answer kind word }
{
    match kind {
        Kind::Assigned => word,
        Kind::Compact => 0,
    }
}

// The answer of an index of no key or one.
fn few_answer(kind: Kind, n: u32, word: u32) -> u32
    ensures { result ≡ few_answer kind n word }
{
    if n == 0 {
        return 0;
    }
    one_key_index(kind, word)
}

// The answers of a lookup that is not refused.
fn answer_all(
    index: Index,
    keys: &[u64],
    table: &[u32],
    occ: &[u8],
    supers: &[u32],
    out: &mut [u32],
)
    requires { lookup_no index (length keys.now) (length table.now) (length occ.now) (length supers.now) (length out.old) ≡ 0 }
    ensures { out.new ≡ over (answers_of index table.now occ.now supers.now keys.now) out.old }
{
    if keys.len() == 0 {
        return;
    }
    let kind = index.kind;
    if index.n < 2 {
        out[..keys.len()].fill(few_answer(kind, index.n, first_word(table)));
        return;
    }
    match kind {
        Kind::Assigned => answer_each(keys, out, |key| {
            assigned_answer(key, index.seed, index.m, index.modulus, table)
        }),
        Kind::Compact => answer_each(keys, out, |key| {
            compact_answer(key, index.seed, index.m, index.n, table, occ, supers)
        }),
    }
}

// One answer a key, into the first words of out. 14, 11, 12.
pub fn index_batch(
    index: Index,
    keys: &[u64],
    table: &[u32],
    occ: &[u8],
    supers: &[u32],
    out: &mut [u32],
) -> Result<(), Refusal>
    ensures { LookedUp index keys.now table.now occ.now supers.now out.old (number_of result) out.new }
{
    lookup_no(
        index,
        keys.len(),
        table.len(),
        occ.len(),
        supers.len(),
        out.len(),
    )?;
    answer_all(index, keys, table, occ, supers, out);
    Ok(())
}

// The answer of an index of two keys or more from the sum of a key's words.
fn finish_many(index: Index, key: u64, sum: u32, occ: &[u8], supers: &[u32]) -> u32
    requires { (2 ≤ index.n) × (finish_no index (length occ.now) (length supers.now) ≡ 0) }
    ensures { result ≡ many_from index.kind index occ.now supers.now key sum }
{
    let kind = index.kind;
    match kind {
        Kind::Assigned => sum % index.modulus,
        Kind::Compact => {
            let v = hash_verts(key, index.seed, index.m, Kind::Compact);
            compact_finish(sum, v, index.m, index.n, occ, supers)
        }
    }
}

// A key's answer from its three words, wherever they were read. 11, 12, 14.
pub fn finish_index(
    index: Index,
    key: u64,
    a: u32,
    b: u32,
    c: u32,
    occ: &[u8],
    supers: &[u32],
) -> Result<u32, Refusal>
    ensures { told_answer result ≡ finish_of index key a b c occ.now supers.now }
{
    let kind = index.kind;
    lookup_no(index, 1, index.m as usize, occ.len(), supers.len(), 1)?;
    if index.n < 2 {
        return Ok(few_answer(kind, index.n, a));
    }
    let sum = a.wrapping_add(b).wrapping_add(c);
    Ok(finish_many(index, key, sum, occ, supers))
}
