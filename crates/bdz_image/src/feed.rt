// The page feed's public calls.
ghost use Rattle.std.specs.Prelude.{◌≡◌, length, IfOk};
ghost use Rattle.bdz_base.specs.Refusal.{number_of};
ghost use Rattle.bdz_table.specs.Told.{told_answer};
ghost use Rattle.bdz_image.specs.Ask.{told_words};
ghost use Rattle.bdz_image.specs.Feeding.{told_counts, feed_m, lists_none, lists_pages, occupancy_no, feed_no, start_room, start_no, page_early, Opened, PageFed, super_no, ask_room, finish_words, asked_of};

use super::ask::{KeyWords, ask};
use super::page::feed;
use super::start::start;
use bdz_base::refusal::Refusal;
use bdz_base::size::{occ_packed_bytes, super_count};
use bdz_base::verts::Kind;
use bdz_base::width::Width;
use bdz_table::index::Index;
use bdz_table::lookup::finish_index;

// How many keys a feed has, and how many pages it lists.
#[derive(Clone, Copy)]
pub struct Counts {
    pub keys: u64,
    pub pages: u64,
}

// n = 1 is one word, whatever m says.
fn feed_m(index: Index) -> u32
    ensures { result ≡ feed_m index }
{
    if index.n == 1 {
        return 1;
    }
    index.m
}

// A compact index of one key lists no page.
fn lists_none(kind: Kind, n: u32) -> bool
    ensures { result ≡ lists_none kind n }
{
    match kind {
        Kind::Assigned => false,
        Kind::Compact => n == 1,
    }
}

// Whether a feed of so many keys lists pages.
fn lists_pages(index: Index, keys: u64) -> bool
    ensures { result ≡ lists_pages index keys }
{
    let kind = index.kind;
    if keys == 0 {
        return false;
    }
    if index.n == 0 {
        return false;
    }
    if lists_none(kind, index.n) {
        return false;
    }
    true
}

// 12, or what comes after it.
fn occupancy_no(kind: Kind, m: u32, occ: usize, next: Result<(), Refusal>) -> Result<(), Refusal>
    ensures { number_of result ≡ occupancy_no kind m occ (number_of next) }
{
    match kind {
        Kind::Assigned => next,
        Kind::Compact => {
            if (occ as u64) < occ_packed_bytes(m) {
                return Err(Refusal::OccTruncated);
            }
            next
        }
    }
}

// The checks of a start, of which room is the last.
fn feed_no(index: Index, keys: u64, occ: usize, room: Result<(), Refusal>) -> Result<(), Refusal>
    ensures { number_of result ≡ feed_no index keys occ (number_of room) }
{
    let kind = index.kind;
    if keys == 0 {
        return Ok(());
    }
    if index.n == 0 {
        return Ok(());
    }
    Width::new(index.width)?;
    if lists_none(kind, index.n) {
        return Ok(());
    }
    if index.n == 1 {
        return room;
    }
    if index.m == 0 {
        return Err(Refusal::ZeroModulus);
    }
    if index.modulus == 0 {
        return Err(Refusal::ZeroModulus);
    }
    occupancy_no(kind, index.m, occ, room)
}

// 13 or 14 by the lengths of what is lent.
fn start_room(keys: usize, order: usize, slots: usize, pages: usize) -> Result<(), Refusal>
    ensures { number_of result ≡ start_room keys order slots pages }
{
    if 1073741824 < keys {
        return Err(Refusal::TooLarge);
    }
    if order < 3 * keys {
        return Err(Refusal::NoRoom);
    }
    if slots < 3 * keys {
        return Err(Refusal::NoRoom);
    }
    if pages < 6 * keys {
        return Err(Refusal::NoRoom);
    }
    Ok(())
}

// The refusal of a start by the lengths of what is lent.
pub fn start_no(
    index: Index,
    keys: usize,
    occ: usize,
    order: usize,
    slots: usize,
    pages: usize,
) -> Result<(), Refusal>
    ensures { number_of result ≡ start_no index keys occ order slots pages }
{
    feed_no(
        index,
        keys as u64,
        occ,
        start_room(keys, order, slots, pages),
    )
}

// A feed for keys: the order of their slots, the slots, and the pages that they wait for, rising, each once. 10, 11, 12, 13, 14.
pub fn feed_start(
    index: Index,
    keys: &[u64],
    occ: &[u8],
    order: &mut [u64],
    slots: &mut [u64],
    pages: &mut [u32],
) -> Result<Counts, Refusal>
    ensures { Opened index keys.now (length occ.now) order.old slots.old pages.old (told_counts result) order.new slots.new pages.new }
{
    let count = keys.len();
    let kind = index.kind;
    start_no(
        index,
        count,
        occ.len(),
        order.len(),
        slots.len(),
        pages.len(),
    )?;
    if lists_pages(index, count as u64) {
        let width = Width::new(index.width)?;
        let need = 3 * count;
        let listed = start(
            kind,
            keys,
            index.seed,
            feed_m(index),
            width,
            &mut order[..need],
            &mut slots[..need],
            &mut pages[..2 * need],
        );
        return Ok(Counts {
            keys: count as u64,
            pages: listed as u64,
        });
    }
    Ok(Counts {
        keys: count as u64,
        pages: 0,
    })
}

// The refusal of a page before it is looked at, or else the width of its words.
fn page_early(index: Index, keys: u64, order: usize, slots: usize) -> Result<Width, Refusal>
    ensures number_is { number_of result ≡ page_early index keys order slots }
    ensures bits_are { IfOk result (λ width. width.bits ≡ index.width) }
{
    let kind = index.kind;
    if keys == 0 {
        return Err(Refusal::PageNotListed);
    }
    if index.n == 0 {
        return Err(Refusal::PageNotListed);
    }
    let width = Width::new(index.width)?;
    if lists_none(kind, index.n) {
        return Err(Refusal::PageNotListed);
    }
    if ((order / 3) as u64) < keys {
        return Err(Refusal::NoRoom);
    }
    if ((slots / 3) as u64) < keys {
        return Err(Refusal::NoRoom);
    }
    Ok(width)
}

// Feeds a page to a feed of so many keys. 10, 14, 15, 16, 17; a refused page changes nothing.
pub fn feed_page(
    index: Index,
    keys: u64,
    page: u32,
    bytes: &[u8],
    order: &[u64],
    slots: &mut [u64],
) -> Result<(), Refusal>
    ensures { PageFed index keys page bytes.now order.now slots.old (number_of result) slots.new }
{
    let width = page_early(index, keys, order.len(), slots.len())?;
    let need = (3 * keys) as usize;
    feed(
        page,
        bytes,
        feed_m(index),
        width,
        &order[..need],
        &mut slots[..need],
    )
}

// 14 where a compact index lacks super counts.
fn super_no(kind: Kind, m: u32, supers: usize) -> Result<(), Refusal>
    ensures { number_of result ≡ super_no kind m supers 0 }
{
    match kind {
        Kind::Assigned => Ok(()),
        Kind::Compact => {
            if (supers as u64) < super_count(m) {
                return Err(Refusal::NoRoom);
            }
            Ok(())
        }
    }
}

// 13 or 14 by the lengths of what is lent at asking.
fn ask_room(index: Index, keys: u64, slots: usize, supers: usize) -> Result<(), Refusal>
    ensures { number_of result ≡ ask_room index keys slots supers }
{
    let kind = index.kind;
    if 1073741824 < keys {
        return Err(Refusal::TooLarge);
    }
    if (slots as u64) < 3 * keys {
        return Err(Refusal::NoRoom);
    }
    super_no(kind, index.m, supers)
}

// Lookup's own answer from a key's words, once they are there.
fn finish_words(
    index: Index,
    key: u64,
    words: Result<KeyWords, Refusal>,
    occ: &[u8],
    supers: &[u32],
) -> Result<u32, Refusal>
    ensures { told_answer result ≡ finish_words index key (told_words words) occ.now supers.now }
{
    let words = words?;
    finish_index(index, key, words.a, words.b, words.c, occ, supers)
}

// The answer for the key at a position of a feed of so many keys, which are lent again. 20, 10, 11, 12, 13, 14, 18.
pub fn feed_ask(
    index: Index,
    keys: u64,
    lent: &[u64],
    position: u64,
    occ: &[u8],
    supers: &[u32],
    slots: &[u64],
) -> Result<u32, Refusal>
    ensures { told_answer result ≡ asked_of index keys lent.now position occ.now supers.now slots.now }
{
    if keys <= position {
        return Err(Refusal::NoSuchKey);
    }
    if lent.len() as u64 <= position {
        return Err(Refusal::NoSuchKey);
    }
    feed_no(
        index,
        keys,
        occ.len(),
        ask_room(index, keys, slots.len(), supers.len()),
    )?;
    if lists_pages(index, keys) {
        let at = position as usize;
        return finish_words(index, lent[at], ask(slots, at), occ, supers);
    }
    Ok(0)
}
