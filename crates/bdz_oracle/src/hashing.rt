// Mixing, vertices and sizes, exported.
ghost use Rattle.std.specs.Prelude.{◌≡◌, ◌+◌, ◌*◌, ◌/◌, ◌^◌, ◌≤◌, length};
ghost use Rattle.bdz_base.specs.Buffer.{tab, over};
ghost use Rattle.bdz_base.specs.Mix.{mix64_of, step_of};
ghost use Rattle.bdz_base.specs.Sizes.{assigned_size, compact_size, table_bytes, occupancy_bytes, super_count};
ghost use Rattle.bdz_base.specs.Width.{width_of};
ghost use Rattle.bdz_oracle.specs.Keys.{kind_of, vertex_at, Hashed};

use bdz_base::refusal::Refusal;
use bdz_base::verts::{Kind, hash_verts};
use bdz_base::words::le64;

// The seed that one step from the state gives.
#[unsafe(no_mangle)]
pub extern "C" fn bdz_splitmix64(state: u64) -> u64
    ensures { result ≡ (step_of state).seed }
{
    bdz_base::mix::splitmix64(state).seed
}

// The state after it.
#[unsafe(no_mangle)]
pub extern "C" fn bdz_splitmix64_state(state: u64) -> u64
    ensures { result ≡ (step_of state).state }
{
    bdz_base::mix::splitmix64(state).state
}

#[unsafe(no_mangle)]
pub extern "C" fn bdz_mix64(k: u64) -> u64
    ensures { result ≡ mix64_of k }
{
    bdz_base::mix::mix64(k)
}

// With it in the library the compiler knows no bound on the factors, and makes one multiplication of the whole, in every caller.
#[unsafe(no_mangle)]
pub extern "C" fn bdz_high_product(u: u64, v: u64) -> u64
    ensures { result ≡ u * v / 2 ^ 64 }
{
    bdz_base::words::high_product(u, v)
}

#[unsafe(no_mangle)]
pub extern "C" fn bdz_vertex_count(n: u32) -> u64
    ensures { result ≡ assigned_size n }
{
    bdz_base::size::vertex_count(n)
}

#[unsafe(no_mangle)]
pub extern "C" fn bdz_compact_vertex_count(n: u32) -> u64
    ensures { result ≡ compact_size n }
{
    bdz_base::size::compact_vertex_count(n)
}

#[unsafe(no_mangle)]
pub extern "C" fn bdz_g_bits_for_modulus(modulus: u32) -> u32
    ensures { result ≡ width_of modulus }
{
    bdz_base::size::g_bits_for_modulus(modulus)
}

#[unsafe(no_mangle)]
pub extern "C" fn bdz_packed_g_bytes(n_verts: u32, g_bits: u32) -> u64
    ensures { result ≡ table_bytes g_bits n_verts }
{
    bdz_base::size::packed_g_bytes(n_verts, g_bits)
}

#[unsafe(no_mangle)]
pub extern "C" fn bdz_occ_packed_bytes(m: u32) -> u64
    ensures { result ≡ occupancy_bytes m }
{
    bdz_base::size::occ_packed_bytes(m)
}

#[unsafe(no_mangle)]
pub extern "C" fn bdz_super_count(m: u32) -> u64
    ensures { result ≡ super_count m }
{
    bdz_base::size::super_count(m)
}

// Three words a key.
fn hash_all(keys: &[u8], n: usize, seed: u64, m: u32, kind: Kind, out: &mut [u32])
    requires { (n ≡ length keys.now / 8) × (3 * n ≤ length out.old) }
    ensures { out.new ≡ over (tab (vertex_at kind keys.now seed m) (3 * n)) out.old }
{
    for i in 0..n {
        let at = i * 8;
        let end = at + 8;
        let v = hash_verts(le64(&keys[at..end], 0), seed, m, kind);
        out[3 * i] = v.a;
        out[3 * i + 1] = v.b;
        out[3 * i + 2] = v.c;
    }
}

// The vertices of each key, of the assigned kind for 0 and of the compact kind for any other number. 14 where out is too short, and then it stays as it is. Bytes that make no whole key are passed over.
#[unsafe(no_mangle)]
pub extern "C" fn bdz_hash_verts(
    keys: &[u8],
    seed: u64,
    m: u32,
    compact: u32,
    out: &mut [u32],
) -> u32
    ensures { Hashed (kind_of compact) keys.now seed m out.old result out.new }
{
    let n = keys.len() / 8;
    if out.len() < 3 * n {
        return u32::from(Refusal::NoRoom);
    }
    // a kind that is known at the call is one routine in the loop
    if compact == 0 {
        hash_all(keys, n, seed, m, Kind::Assigned, out);
        return 0;
    }
    hash_all(keys, n, seed, m, Kind::Compact, out);
    0
}
