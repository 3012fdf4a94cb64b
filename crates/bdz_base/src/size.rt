// How many vertices n keys have, and how many words and bytes that makes.
ghost use Rattle.std.specs.Prelude.{◌≡◌};
ghost use Rattle.bdz_base.specs.Sizes.{assigned_size, compact_size, table_bytes, occupancy_bytes, super_count};
ghost use Rattle.bdz_base.specs.Width.{width_of};

// The vertices of an assigned index of n keys, for n of 2 or more.
pub fn vertex_count(n: u32) -> u64
    ensures { result ≡ assigned_size n }
{
    let wide = n as u64;
    ((123 * wide + 99) / 100).max(wide + 3)
}

// The same of a compact index: a multiple of 3.
pub fn compact_vertex_count(n: u32) -> u64
    ensures { result ≡ compact_size n }
{
    (vertex_count(n) + 2) / 3 * 3
}

// The bits of the modulus less 1, and 1 for a modulus up to 1.
pub fn g_bits_for_modulus(modulus: u32) -> u32
    ensures { result ≡ width_of modulus }
{
    if modulus <= 1 {
        return 1;
    }
    32 - u32::leading_zeros(modulus - 1)
}

// The bytes of a packed table.
pub fn packed_g_bytes(n_verts: u32, g_bits: u32) -> u64
    ensures { result ≡ table_bytes g_bits n_verts }
{
    (n_verts as u64 * g_bits as u64 + 7) / 8
}

// The bytes of an occupancy.
pub fn occ_packed_bytes(m: u32) -> u64
    ensures { result ≡ occupancy_bytes m }
{
    (m as u64 + 7) / 8
}

// How many super counts an occupancy has.
pub fn super_count(m: u32) -> u64
    ensures { result ≡ super_count m }
{
    (m as u64 + 511) / 512 + 1
}
