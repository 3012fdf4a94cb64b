// The page feed, exported.
ghost use Rattle.std.specs.Prelude.{◌≡◌, length};
ghost use Rattle.bdz_image.specs.Feeding.{PageFed, asked_of};
ghost use Rattle.bdz_image.specs.Page.{page_length};
ghost use Rattle.bdz_oracle.specs.Feeding.{record_of, ToldStart, ToldAnswer};

use super::reading::{kind_of, number_of, read_keys, room_no};
use bdz_base::refusal::Refusal;
use bdz_image::feed::{Counts, feed_ask, feed_page, feed_start, start_no};
use bdz_image::page::g_page_need;
use bdz_table::index::Index;

// "with every other field zero"
const NO_COUNTS: Counts = Counts { keys: 0, pages: 0 };

// An index from all its numbers.
pub(crate) fn record_of(compact: u32, n: u32, m: u32, seed: u64, modulus: u32, width: u32) -> Index
    ensures { result ≡ record_of compact n m seed modulus width }
{
    Index {
        kind: kind_of(compact),
        n,
        m,
        seed,
        modulus,
        width,
    }
}

#[unsafe(no_mangle)]
pub extern "C" fn bdz_g_page_need(n_bytes: u64, page: u32) -> u64
    ensures { result ≡ page_length n_bytes page }
{
    g_page_need(n_bytes, page)
}

// A feed for keys that come as bytes, in an index of the assigned kind for 0 and of the compact kind for any other number; told
// are how many keys and pages it has, zeros of a refusal. 14 where they have no room, then where the keys have none, then the
// start's own numbers; all are judged before the keys are read, so a refusal touches nothing else.
#[unsafe(no_mangle)]
pub extern "C" fn bdz_feed_start(
    keys: &[u8],
    compact: u32,
    n: u32,
    m: u32,
    seed: u64,
    modulus: u32,
    width: u32,
    occ: &[u8],
    key_room: &mut [u64],
    order: &mut [u64],
    slots: &mut [u64],
    pages: &mut [u32],
    told: &mut [u64],
) -> u32
    ensures { ToldStart (record_of compact n m seed modulus width) keys.now (length occ.now) key_room.old order.old slots.old pages.old told.old result key_room.new order.new slots.new pages.new told.new }
{
    if told.len() < 2 {
        return u32::from(Refusal::NoRoom);
    }
    let count = keys.len() / 8;
    let index = record_of(compact, n, m, seed, modulus, width);
    let judged = start_no(
        index,
        count,
        occ.len(),
        order.len(),
        slots.len(),
        pages.len(),
    );
    if let Err(refusal) = room_no(key_room.len(), count, judged) {
        told[0] = 0;
        told[1] = 0;
        return u32::from(refusal);
    }
    read_keys(keys, count, key_room);
    let feed = feed_start(index, &key_room[..count], occ, order, slots, pages);
    let counts = feed.unwrap_or(NO_COUNTS);
    told[0] = counts.keys;
    told[1] = counts.pages;
    number_of(feed)
}

#[unsafe(no_mangle)]
pub extern "C" fn bdz_feed_page(
    compact: u32,
    n: u32,
    m: u32,
    seed: u64,
    modulus: u32,
    width: u32,
    keys: u64,
    page: u32,
    bytes: &[u8],
    order: &[u64],
    slots: &mut [u64],
) -> u32
    ensures { PageFed (record_of compact n m seed modulus width) keys page bytes.now order.now slots.old result slots.new }
{
    let index = record_of(compact, n, m, seed, modulus, width);
    number_of(feed_page(index, keys, page, bytes, order, slots))
}

// The answer at a position, told in one word. 14 where it has no room, and then it stays as it is.
#[unsafe(no_mangle)]
pub extern "C" fn bdz_feed_ask(
    compact: u32,
    n: u32,
    m: u32,
    seed: u64,
    modulus: u32,
    width: u32,
    keys: u64,
    lent: &[u64],
    position: u64,
    occ: &[u8],
    supers: &[u32],
    slots: &[u64],
    told: &mut [u32],
) -> u32
    ensures { ToldAnswer (asked_of (record_of compact n m seed modulus width) keys lent.now position occ.now supers.now slots.now) told.old result told.new }
{
    if told.len() < 1 {
        return u32::from(Refusal::NoRoom);
    }
    let index = record_of(compact, n, m, seed, modulus, width);
    let asked = feed_ask(index, keys, lent, position, occ, supers, slots);
    told[0] = asked.unwrap_or(0);
    number_of(asked)
}
