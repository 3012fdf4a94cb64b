// Packing and unpacking, exported.
ghost use Rattle.std.specs.Prelude.{◌≡◌, ◌^◌, min, length};
ghost use Rattle.bdz_base.specs.Buffer.{tab, over};
ghost use Rattle.bdz_base.specs.Pack.{bits_at, word_at, Packed};

use super::reading::number_of;
use bdz_base::pack::unpack_g_at;

#[unsafe(no_mangle)]
pub extern "C" fn bdz_pack_g(g: &[u32], width: u32, body: &mut [u8]) -> u32
    ensures { Packed width g.now body.old result body.new }
{
    number_of(bdz_base::pack::pack_g(g, width, body))
}

#[unsafe(no_mangle)]
pub extern "C" fn bdz_extract_g_window(part: &[u8], start: u64, width: u32) -> u32
    ensures { result ≡ bits_at (min width 32) part.now start }
{
    bdz_base::pack::extract_g_window(part, start, width)
}

#[unsafe(no_mangle)]
pub extern "C" fn bdz_unpack_g_at(body: &[u8], v: u32, width: u32) -> u32
    ensures { result ≡ word_at width body.now v }
{
    unpack_g_at(body, v, width)
}

// As many words as a vertex number of 32 bits reaches.
fn reached(len: usize) -> usize
    ensures { result ≡ min len (2 ^ 32) }
{
    len.min(0x1_0000_0000)
}

// The words from vertex 0 on, as many as out has room for.
#[unsafe(no_mangle)]
pub extern "C" fn bdz_unpack_g(body: &[u8], width: u32, out: &mut [u32])
    ensures { out.new ≡ over (tab (word_at width body.now) (min (length out.old) (2 ^ 32))) out.old }
{
    let n = reached(out.len());
    for v in 0..n {
        out[v] = unpack_g_at(body, v as u32, width);
    }
}
