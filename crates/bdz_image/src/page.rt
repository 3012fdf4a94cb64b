// One page is fed.
ghost use Rattle.std.specs.Prelude.{◌≡◌, ◌+◌, ◌*◌, ◌/◌, length, get_or};
ghost use Rattle.bdz_base.specs.Refusal.{number_of};
ghost use Rattle.bdz_image.specs.Page.{missing_in, page_length, entry_no, page_no, page_slots};

use super::bits::low_bits;
use super::slot::cut_of;
use super::sweep::{place, sweep};
use bdz_base::refusal::Refusal;
use bdz_base::size::packed_g_bytes;
use bdz_base::width::Width;

// The bits of the page that a slot of the word at v still misses.
fn missing_in(page: u32, v: u32, width: Width, slot: u64) -> u64
    ensures { result ≡ missing_in width.bits page v slot }
{
    let k = cut_of(v, width);
    let first = v as u64 * width.bits() as u64 / 32768;
    if page as u64 == first {
        return low_bits(slot >> 32, k);
    }
    if page as u64 == first + 1 {
        return (slot >> 32) >> k;
    }
    0
}

// How many bytes a page of a table of n_bytes bytes has.
pub fn g_page_need(n_bytes: u64, page: u32) -> u64
    ensures { result ≡ page_length n_bytes page }
{
    let base = page as u64 * 4096;
    // asked first: as a difference that saturates this took half as long again
    if n_bytes <= base {
        return 0;
    }
    (n_bytes - base).min(4096)
}

// The slot s, or 0 where there is none.
fn slot_at(slots: &[u64], s: usize) -> u64
    ensures { result ≡ get_or slots.now s 0 }
{
    slots.get(s).copied().unwrap_or(0)
}

// The refusal of a page whose first word would be that of the entry e.
fn entry_no(
    page: u32,
    len: usize,
    m: u32,
    width: Width,
    slots: &[u64],
    e: u64,
) -> Result<(), Refusal>
    ensures { number_of result ≡ entry_no width.bits m page len slots.now e }
{
    let bits = width.bits();
    if (e >> 32) * bits as u64 >= (page as u64 + 1) * 32768 {
        return Err(Refusal::PageNotListed);
    }
    let slot = slot_at(slots, (e & 0xffff_ffff) as usize);
    if missing_in(page, (e >> 32) as u32, width, slot) == 0 {
        return Err(Refusal::PageGiven);
    }
    if len as u64 != g_page_need(packed_g_bytes(m, bits), page) {
        return Err(Refusal::PageLength);
    }
    Ok(())
}

// One page is fed.
pub(crate) fn feed(
    page: u32,
    bytes: &[u8],
    m: u32,
    width: Width,
    order: &[u64],
    slots: &mut [u64],
) -> Result<(), Refusal>
    ensures { (number_of result ≡ page_no width.bits m page (length bytes.now) slots.old order.now)
        × (slots.new ≡ page_slots width.bits m page bytes.now slots.old order.now) }
{
    let lo = place(order, page as u64 * 32768 / width.bits() as u64);
    if lo >= order.len() {
        return Err(Refusal::PageNotListed);
    }
    entry_no(page, bytes.len(), m, width, slots, order[lo])?;
    sweep(page, bytes, width, order, lo, slots);
    Ok(())
}
