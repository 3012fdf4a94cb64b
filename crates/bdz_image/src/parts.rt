// Where the parts of an image stand, by the width that its own record has: an opened one need not have the width of its modulus.
ghost use Rattle.std.specs.Prelude.{◌≡◌};
ghost use Rattle.bdz_image.specs.Parts.{body_off, occ_off, end_off};

use super::size::{size, words_in};
use bdz_base::verts::Kind;
use bdz_table::index::Index;

// Where the table starts.
pub fn body_off(index: Index) -> u64
    ensures { result ≡ body_off index }
{
    32
}

// Where the table ends, and the occupancy starts.
pub fn occ_off(index: Index) -> u64
    ensures { result ≡ occ_off index }
{
    size(Kind::Assigned, index.width, words_in(index.n, index.m))
}

// Where the image ends.
pub fn end_off(index: Index) -> u64
    ensures { result ≡ end_off index }
{
    let kind = index.kind;
    size(kind, index.width, words_in(index.n, index.m))
}
