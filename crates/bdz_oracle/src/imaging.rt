// Images, exported.
ghost use Rattle.std.specs.Prelude.{◌≡◌};
ghost use Rattle.bdz_image.specs.Image.{image_len, trailer_off};
ghost use Rattle.bdz_image.specs.Open.{open_packed, open_compact};
ghost use Rattle.bdz_image.specs.Parts.{body_off, occ_off, end_off};
ghost use Rattle.bdz_image.specs.Write.{Wrote};
ghost use Rattle.bdz_oracle.specs.Feeding.{record_of};
ghost use Rattle.bdz_oracle.specs.Looking.{index_of};
ghost use Rattle.bdz_oracle.specs.Imaging.{ToldIndex, ToldAudit};

use super::building::tell;
use super::feeding::record_of;
use super::reading::number_of;
use bdz_base::refusal::Refusal;
use bdz_image::audit::{Finding, audit};
use bdz_image::open::{open_compact, open_packed};
use bdz_image::parts::{body_off, end_off, occ_off};
use bdz_image::size::{image_len, trailer_off};
use bdz_image::write::write_image;

// "with every other field zero"
const NOTHING_FOUND: Finding = Finding {
    ones: 0,
    full: false,
};

// The bytes of the image of an index, of the assigned kind for 0 and of the compact kind for any other number.
#[unsafe(no_mangle)]
pub extern "C" fn bdz_image_len(compact: u32, n: u32, m: u32, modulus: u32) -> u64
    ensures { result ≡ image_len (index_of compact n m 0 modulus) }
{
    image_len(record_of(compact, n, m, 0, modulus, 0))
}

#[unsafe(no_mangle)]
pub extern "C" fn bdz_trailer_off(n: u32, m: u32) -> u64
    ensures { result ≡ trailer_off (index_of 1 n m 0 0) }
{
    trailer_off(record_of(1, n, m, 0, 0, 0))
}

// Where the parts of an image stand, by the width of its record: the table's start, its end, and the image's end.
#[unsafe(no_mangle)]
pub extern "C" fn bdz_body_off(compact: u32, n: u32, m: u32, width: u32) -> u64
    ensures { result ≡ body_off (record_of compact n m 0 0 width) }
{
    body_off(record_of(compact, n, m, 0, 0, width))
}

#[unsafe(no_mangle)]
pub extern "C" fn bdz_occ_off(compact: u32, n: u32, m: u32, width: u32) -> u64
    ensures { result ≡ occ_off (record_of compact n m 0 0 width) }
{
    occ_off(record_of(compact, n, m, 0, 0, width))
}

#[unsafe(no_mangle)]
pub extern "C" fn bdz_end_off(compact: u32, n: u32, m: u32, width: u32) -> u64
    ensures { result ≡ end_off (record_of compact n m 0 0 width) }
{
    end_off(record_of(compact, n, m, 0, 0, width))
}

#[unsafe(no_mangle)]
pub extern "C" fn bdz_write_image(
    compact: u32,
    n: u32,
    m: u32,
    seed: u64,
    modulus: u32,
    table: &[u32],
    occ: &[u8],
    image: &mut [u8],
) -> u32
    ensures { Wrote (index_of compact n m seed modulus) table.now occ.now image.old result image.new }
{
    let index = record_of(compact, n, m, seed, modulus, 0);
    number_of(write_image(index, table, occ, image))
}

// Opens a BDZ2 image. 14 where the answer has no five words, and then it stays as it is.
#[unsafe(no_mangle)]
pub extern "C" fn bdz_open_packed(first: &[u8], len: u64, answer: &mut [u64]) -> u32
    ensures { ToldIndex (open_packed first.now len) answer.old result answer.new }
{
    if answer.len() < 5 {
        return u32::from(Refusal::NoRoom);
    }
    tell(open_packed(first, len), answer)
}

// Opens a BDZ3 image, likewise.
#[unsafe(no_mangle)]
pub extern "C" fn bdz_open_compact(first: &[u8], len: u64, answer: &mut [u64]) -> u32
    ensures { ToldIndex (open_compact first.now len) answer.old result answer.new }
{
    if answer.len() < 5 {
        return u32::from(Refusal::NoRoom);
    }
    tell(open_compact(first, len), answer)
}

// The audit of n, m and an occupancy: the ones, and 1 where they are n. 14 where the answer has no two words, and then it stays as it is.
#[unsafe(no_mangle)]
pub extern "C" fn bdz_audit(n: u32, m: u32, occ: &[u8], answer: &mut [u64]) -> u32
    ensures { ToldAudit n m occ.now answer.old result answer.new }
{
    if answer.len() < 2 {
        return u32::from(Refusal::NoRoom);
    }
    let index = record_of(1, n, m, 0, n, 2);
    let audited = audit(index, occ);
    let found = audited.unwrap_or(NOTHING_FOUND);
    answer[0] = found.ones;
    answer[1] = u64::from(found.full);
    number_of(audited)
}
