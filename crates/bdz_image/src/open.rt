// The two openers: from an image's first bytes and its length to the index, or a refusal.
ghost use Rattle.std.specs.Prelude.{◌≡◌};
ghost use Rattle.bdz_base.specs.Refusal.{number, number_of};
ghost use Rattle.bdz_table.specs.Told.{told_index};
ghost use Rattle.bdz_image.specs.Open.{opened_m, opened_seed, lacks_width, kind_lacks_modulus, opened_modulus, opened_width, lacks_header, header_no, opened_by, open_packed, open_compact};

use super::header::{Header, magic_of, read_header};
use super::size::size;
use bdz_base::refusal::Refusal;
use bdz_base::verts::Kind;
use bdz_base::width::Width;
use bdz_table::index::Index;

// The vertices of an opened image: none for no keys, one for one.
fn opened_m(n: u32, m: u32) -> u32
    ensures { result ≡ opened_m n m }
{
    if n == 0 {
        return 0;
    }
    if n == 1 {
        return 1;
    }
    m
}

fn opened_seed(n: u32, seed: u64) -> u64
    ensures { result ≡ opened_seed n seed }
{
    if n == 0 {
        return 0;
    }
    seed
}

// A width that no image of the kind has: BDZ3 has 2.
fn lacks_width(kind: Kind, width: u32) -> bool
    ensures { result ≡ lacks_width kind width }
{
    match kind {
        Kind::Assigned => Width::new(width).is_err(),
        Kind::Compact => width != 2,
    }
}

fn opened_width(kind: Kind, width: u32) -> u32
    ensures { result ≡ opened_width kind width }
{
    match kind {
        Kind::Assigned => width,
        Kind::Compact => 2,
    }
}

// More than one key, and no vertex or no modulus; BDZ3 holds no modulus.
fn lacks_modulus(kind: Kind, h: Header) -> bool
    ensures { result ≡ kind_lacks_modulus kind h }
{
    match kind {
        Kind::Assigned => 1 < h.n && (h.m == 0 || h.modulus == 0),
        Kind::Compact => false,
    }
}

// The refusal of an image of a kind by its header and length.
fn header_no(kind: Kind, h: Header, len: u64) -> Result<(), Refusal>
    ensures { number_of result ≡ header_no kind h len }
{
    if h.magic != magic_of(kind) {
        return Err(Refusal::BadMagic);
    }
    if h.version != 1 {
        return Err(Refusal::BadVersion);
    }
    if lacks_width(kind, h.width) {
        return Err(Refusal::GBits);
    }
    if h.n == 0 {
        return Ok(());
    }
    if lacks_modulus(kind, h) {
        return Err(Refusal::ZeroModulus);
    }
    if len < size(kind, opened_width(kind, h.width), opened_m(h.n, h.m)) {
        return Err(Refusal::GLength);
    }
    Ok(())
}

// The modulus of an opened image: that of a BDZ2 header, and n in BDZ3.
fn opened_modulus(kind: Kind, h: Header) -> u32
    ensures { result ≡ opened_modulus kind h }
{
    match kind {
        Kind::Assigned => h.modulus,
        Kind::Compact => h.n,
    }
}

// The index of a header that is not refused.
fn header_index(kind: Kind, h: Header) -> Index
    ensures { result ≡ record { kind = kind; n = h.n; m = opened_m h.n h.m; seed = opened_seed h.n h.seed; modulus = opened_modulus kind h; width = opened_width kind h.width } }
{
    Index {
        kind,
        n: h.n,
        m: opened_m(h.n, h.m),
        seed: opened_seed(h.n, h.seed),
        modulus: opened_modulus(kind, h),
        width: opened_width(kind, h.width),
    }
}

// There are not 32 bytes.
fn lacks_header(first: usize, len: u64) -> bool
    ensures { result ≡ lacks_header first len }
{
    if first < 32 {
        return true;
    }
    len < 32
}

// Opens an image of a kind; `short` is the refusal of one that has not 32 bytes.
fn open(kind: Kind, short: Refusal, first: &[u8], len: u64) -> Result<Index, Refusal>
    ensures { told_index result ≡ opened_by (number short) kind first.now len }
{
    if lacks_header(first.len(), len) {
        return Err(short);
    }
    let h = read_header(first);
    header_no(kind, h, len)?;
    Ok(header_index(kind, h))
}

// Opens a BDZ2 image, given its first bytes and its length. 6, 8, 9, 10, 11, 7.
pub fn open_packed(first: &[u8], len: u64) -> Result<Index, Refusal>
    ensures { told_index result ≡ open_packed first.now len }
{
    open(Kind::Assigned, Refusal::ShortPread, first, len)
}

// Opens a BDZ3 image, given its first bytes and its length. 7, 8, 9, 10, 7.
pub fn open_compact(first: &[u8], len: u64) -> Result<Index, Refusal>
    ensures { told_index result ≡ open_compact first.now len }
{
    open(Kind::Compact, Refusal::GLength, first, len)
}
