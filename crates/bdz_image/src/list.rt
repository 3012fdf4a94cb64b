// The pages that a feed lists.
ghost use Rattle.std.specs.Prelude.{◌≡◌, ◌+◌, ◌-◌, ◌*◌, ◌/◌, ◌%◌, ◌^◌, ◌<◌, length};
ghost use Rattle.bdz_base.specs.Pages.{last_page};
ghost use Rattle.bdz_image.specs.Pages.{own_page, Listing, list_of, padded};
ghost use Rattle.bdz_image.specs.Sweep.{vertex_in};

use bdz_base::width::Width;

// The last page of an entry's word.
fn last_page(entry: u64, width: Width) -> u32
    ensures { (result ≡ last_page width.bits (vertex_in entry)) × (result < 2 ^ 23) }
{
    let bits = width.bits() as u64;
    (((entry >> 32) * bits + (bits - 1)) / 32768) as u32
}

// The first page of an entry's word, or with odd i the last.
fn own_page(order: &[u64], i: usize, width: Width) -> u32
    requires { i < 2 * length order.now }
    ensures { (result ≡ own_page width.bits order.now i) × (result < 2 ^ 23) }
{
    let entry = order[i / 2];
    if i % 2 == 0 {
        return ((entry >> 32) * width.bits() as u64 / 32768) as u32;
    }
    last_page(entry, width)
}

// How many pages are listed, and the first number behind them.
#[derive(Clone, Copy)]
struct Listed {
    count: usize,
    next: u32,
}

// One page of the row is listed, if it is not behind.
fn note(order: &[u64], i: usize, width: Width, so_far: Listed, pages: &mut [u32]) -> Listed
    requires { (i < 2 * length order.now)
        × Listing (own_page width.bits order.now) (2 * length order.now) so_far.count so_far.next i
        pages.old }
    ensures { Listing (own_page width.bits order.now) (2 * length order.now) result.count result.next
        (i + 1) pages.new }
{
    let page = own_page(order, i, width);
    let count = so_far.count;
    if page < so_far.next {
        return so_far;
    }
    pages[count] = page;
    Listed {
        count: count + 1,
        next: page + 1,
    }
}

// Both pages of an entry's word. Mostly the last of them is listed already, and then the first is too.
fn note_both(order: &[u64], i: usize, width: Width, so_far: Listed, pages: &mut [u32]) -> Listed
    requires { (i < length order.now)
        × Listing (own_page width.bits order.now) (2 * length order.now) so_far.count so_far.next (2 * i)
        pages.old }
    ensures { Listing (own_page width.bits order.now) (2 * length order.now) result.count result.next
        (2 * (i + 1)) pages.new }
{
    if last_page(order[i], width) < so_far.next {
        return so_far;
    }
    let first = note(order, 2 * i, width, so_far, pages);
    note(order, 2 * i + 1, width, first, pages)
}

// The pages of the words of an order, rising, each once, and zeros behind them. How many they are.
pub(crate) fn list(order: &[u64], width: Width, pages: &mut [u32]) -> usize
    requires { length pages.old ≡ 2 * length order.now }
    ensures { (result ≡ length (list_of width.bits order.now))
        × (pages.new ≡ padded (length pages.old) (list_of width.bits order.now)) }
{
    pages.fill(0);
    let mut so_far = Listed { count: 0, next: 0 };
    for i in 0..order.len() {
        so_far = note_both(order, i, width, so_far, pages);
    }
    so_far.count
}
