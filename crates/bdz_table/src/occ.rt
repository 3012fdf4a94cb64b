// Single bits of lent bytes.
ghost use Rattle.std.specs.Prelude.{◌≡◌, ◌/◌, ◌<◌, length, ◌==◌};
ghost use Rattle.bdz_base.specs.Pack.{bits_at};
ghost use Rattle.bdz_table.specs.Occupancy.{with_bit};

// The bit of v is set.
pub(crate) fn occ_set(bytes: &mut [u8], v: u32)
    requires { v / 8 < length bytes.old }
    ensures { bytes.new ≡ with_bit v bytes.old }
{
    let at = (v / 8) as usize;
    bytes[at] = bytes[at] | (1u8 << (v % 8));
}

// Whether it is.
pub(crate) fn occ_has(bytes: &[u8], v: u32) -> bool
    requires { v / 8 < length bytes.now }
    ensures { result ≡ (bits_at 1 bytes.now v == 1) }
{
    let at = (v / 8) as usize;
    (bytes[at] >> (v % 8)) & 1 == 1
}
