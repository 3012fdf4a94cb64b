// What a page does to the slots of its words.
ghost use Rattle.std.specs.Prelude.{◌≡◌, ◌+◌, ◌-◌, ◌*◌, ◌/◌, ◌<◌, length, drop};
ghost use Rattle.bdz_image.specs.Sweep.{sweep_of, touch_of, place_of};

use super::slot::slot_take;
use bdz_base::width::Width;

// The slot of one entry takes the page.
fn touch(page: u32, bytes: &[u8], width: Width, e: u64, slots: &mut [u64])
    ensures { slots.new ≡ touch_of width.bits page bytes.now e slots.old }
{
    let s = (e & 0xffff_ffff) as usize;
    if s < slots.len() {
        slots[s] = slot_take(page, bytes, (e >> 32) as u32, width, slots[s]);
    }
}

// So do the slots of the entries from the place lo on, up to the first whose word begins behind the page.
pub(crate) fn sweep(
    page: u32,
    bytes: &[u8],
    width: Width,
    order: &[u64],
    lo: usize,
    slots: &mut [u64],
)
    ensures { slots.new ≡ sweep_of width.bits page bytes.now (drop lo order.now) slots.old }
{
    let end = (page as u64 + 1) * 32768;
    // by index: lo may lie past the end, where no slice begins
    for j in lo..order.len() {
        let e = order[j];
        if (e >> 32) * width.bits() as u64 >= end {
            return;
        }
        touch(page, bytes, width, e, slots);
    }
}

// The place of the first entry whose vertex is x or more. By hand: of an order that does not rise the library's
// partition_point promises no place, and what a page answers is promised of each order that is lent.
pub(crate) fn place(order: &[u64], x: u64) -> usize
    ensures { result ≡ place_of (length order.now) order.now x 0 (length order.now) }
{
    let mut lo = 0;
    let mut hi = order.len();
    while lo < hi {
        let mid = lo + (hi - lo) / 2;
        if order[mid] >> 32 < x {
            lo = mid + 1;
        } else {
            hi = mid;
        }
    }
    lo
}
