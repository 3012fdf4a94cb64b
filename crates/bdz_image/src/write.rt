// The writer: the table is packed straight into the part of the lent image that starts at byte 32.
ghost use Rattle.std.specs.Prelude.{◌≡◌, ◌++◌, ◌+◌, ◌≤◌, length, drop};
ghost use Rattle.bdz_base.specs.Pack.{pack_of};
ghost use Rattle.bdz_base.specs.Refusal.{number_of};
ghost use Rattle.bdz_base.specs.Sizes.{table_bytes};
ghost use Rattle.bdz_image.specs.Header.{header_bytes};
ghost use Rattle.bdz_image.specs.Write.{write_no, Wrote};

use super::header::{Header, header_of, put_header};
use super::size::{image_len, occ_in, words_in};
use bdz_base::pack::pack_g;
use bdz_base::refusal::Refusal;
use bdz_base::size::packed_g_bytes;
use bdz_base::width::Width;
use bdz_table::index::{Index, width_for};

// The words, packed into a part that is just as long as they need.
fn put_table(words: &[u32], width: Width, out: &mut [u8])
    requires { length out.old ≡ table_bytes width.bits (length words.now) }
    ensures { out.new ≡ pack_of width.bits words.now }
{
    // of such a part the packer refuses nothing, as the promise of its bytes says
    let _ = pack_g(words, width.bits(), out);
}

// The bytes of src, into a part that is just as long. By a loop: the library's `copy_from_slice` would ask whoever
// links the archive for a memmove.
fn copy(src: &[u8], dst: &mut [u8])
    requires { length dst.old ≡ length src.now }
    ensures { dst.new ≡ src.now }
{
    for (i, &byte) in src.iter().enumerate() {
        dst[i] = byte;
    }
}

// Header, table and occupancy, one after the other.
fn fill(h: Header, width: Width, words: &[u32], room: usize, occ: &[u8], image: &mut [u8])
    requires { (room ≡ table_bytes width.bits (length words.now)) × (32 + room + length occ.now ≤ length image.old) }
    ensures { image.new ≡ header_bytes h
        ++ (pack_of width.bits words.now ++ (occ.now ++ drop (32 + room + length occ.now) image.old)) }
{
    let end = 32 + room;
    put_header(h, &mut image[0..32]);
    put_table(words, width, &mut image[32..end]);
    copy(occ, &mut image[end..end + occ.len()]);
}

// The refusal of a writer by the lengths of what is lent.
fn write_no(index: Index, table: usize, occ: usize, image: usize) -> Result<(), Refusal>
    ensures { number_of result ≡ write_no index table occ image }
{
    let kind = index.kind;
    let words = words_in(index.n, index.m);
    if (occ as u64) < occ_in(kind, words) {
        return Err(Refusal::OccTruncated);
    }
    if table < words as usize {
        return Err(Refusal::NoRoom);
    }
    if (image as u64) < image_len(index) {
        return Err(Refusal::NoRoom);
    }
    Ok(())
}

// Writes the image of an index into the front of the lent bytes. 12, 14.
pub fn write_image(index: Index, table: &[u32], occ: &[u8], image: &mut [u8]) -> Result<(), Refusal>
    ensures { Wrote index table.now occ.now image.old (number_of result) image.new }
{
    write_no(index, table.len(), occ.len(), image.len())?;
    let kind = index.kind;
    let words = words_in(index.n, index.m);
    let width = Width::new(width_for(kind, index.modulus)).unwrap();
    let count = words as usize;
    let bytes = occ_in(kind, words) as usize;
    let room = packed_g_bytes(words, width.bits()) as usize;
    fill(
        header_of(index),
        width,
        &table[0..count],
        room,
        &occ[0..bytes],
        image,
    );
    Ok(())
}
