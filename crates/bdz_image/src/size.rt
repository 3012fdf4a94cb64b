// How long an image is, and what it holds of the table and of the occupancy.
ghost use Rattle.std.specs.Prelude.{◌≡◌, ◌≤◌, ◌^◌};
ghost use Rattle.bdz_image.specs.Image.{words_in, occ_in, size_of, image_len, trailer_off};

use bdz_base::size::{occ_packed_bytes, packed_g_bytes};
use bdz_base::verts::Kind;
use bdz_table::index::{Index, width_for};

// How many words of the table an image holds: none for no keys.
pub(crate) fn words_in(n: u32, m: u32) -> u32
    ensures { result ≡ words_in n m }
{
    if n == 0 {
        return 0;
    }
    m
}

// The occupancy bytes behind so many words.
pub(crate) fn occ_in(kind: Kind, words: u32) -> u64
    ensures { (result ≡ occ_in kind words) × (result ≤ 2 ^ 29) }
{
    match kind {
        Kind::Assigned => 0,
        Kind::Compact => occ_packed_bytes(words),
    }
}

// The bytes of an image of so many words of a width.
pub(crate) fn size(kind: Kind, width: u32, words: u32) -> u64
    ensures { result ≡ size_of kind width words }
{
    32 + packed_g_bytes(words, width) + occ_in(kind, words)
}

// The bytes of the image of an index.
pub fn image_len(index: Index) -> u64
    ensures { result ≡ image_len index }
{
    let kind = index.kind;
    let width = width_for(kind, index.modulus);
    size(kind, width, words_in(index.n, index.m))
}

// Where a BDZ3 image ends.
pub fn trailer_off(index: Index) -> u64
    ensures { result ≡ trailer_off index }
{
    size(Kind::Compact, 2, words_in(index.n, index.m))
}
