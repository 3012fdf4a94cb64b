// The 32 bytes that an image starts with.
ghost use Rattle.std.specs.Prelude.{◌≡◌, length};
ghost use Rattle.bdz_image.specs.Header.{header_bytes, header_at};
ghost use Rattle.bdz_image.specs.Image.{magic_of, modulus_in, header_of};

use super::bits::{high, low};
use bdz_base::pack::{pack_g, unpack_g_at};
use bdz_base::verts::Kind;
use bdz_base::words::le64;
use bdz_table::index::{Index, width_for};

// Its fields.
#[derive(Clone, Copy)]
pub struct Header {
    pub magic: u32,
    pub version: u32,
    pub n: u32,
    pub m: u32,
    pub seed: u64,
    pub modulus: u32,
    pub width: u32,
}

// BDZ2 or BDZ3.
pub(crate) fn magic_of(kind: Kind) -> u32
    ensures { result ≡ magic_of kind }
{
    match kind {
        Kind::Assigned => 0x325a_4442,
        Kind::Compact => 0x335a_4442,
    }
}

fn modulus_in(kind: Kind, modulus: u32) -> u32
    ensures { result ≡ modulus_in kind modulus }
{
    match kind {
        Kind::Assigned => modulus,
        Kind::Compact => 0,
    }
}

// The header that the writer gives to an index.
pub(crate) fn header_of(index: Index) -> Header
    ensures { result ≡ header_of index }
{
    let kind = index.kind;
    let modulus = index.modulus;
    Header {
        magic: magic_of(kind),
        version: 1,
        n: index.n,
        m: index.m,
        seed: index.seed,
        modulus: modulus_in(kind, modulus),
        width: width_for(kind, modulus),
    }
}

// The fields of a header. A byte that is not there counts as 0.
pub(crate) fn read_header(first: &[u8]) -> Header
    ensures { result ≡ header_at first.now }
{
    Header {
        magic: unpack_g_at(first, 0, 32),
        version: unpack_g_at(first, 1, 32),
        n: unpack_g_at(first, 2, 32),
        m: unpack_g_at(first, 3, 32),
        seed: le64(first, 16),
        modulus: unpack_g_at(first, 6, 32),
        width: unpack_g_at(first, 7, 32),
    }
}

// A header into its 32 bytes: eight words of 32 bits, of which two are the seed.
pub(crate) fn put_header(h: Header, out: &mut [u8])
    requires { length out.old ≡ 32 }
    ensures { out.new ≡ header_bytes h }
{
    let words = [
        h.magic,
        h.version,
        h.n,
        h.m,
        low(h.seed),
        high(h.seed),
        h.modulus,
        h.width,
    ];
    pack_g(&words, 32, out).unwrap();
}
