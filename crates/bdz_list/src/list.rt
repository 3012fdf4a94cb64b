// The key list of the programs: judged, and read into lent words.
ghost use Rattle.std.specs.Prelude.{◌≡◌, ◌+◌, ◌≤◌, ◌<◌, length, IfOk};
ghost use Rattle.bdz_base.specs.Buffer.{tab, over};
ghost use Rattle.bdz_base.specs.Refusal.{number_of};
ghost use Rattle.bdz_list.specs.List.{place_of, letter_of, records_in, marked, records_are, list_key, list_value, list_modulus, shaped, assigned_list, compact_list, kind_no, list_kind, value_count, lacks_list, told_list, ReadList};

use bdz_base::pack::extract_g_window;
use bdz_base::refusal::Refusal;
use bdz_base::verts::Kind;
use bdz_base::words::le64;

// What a list is of: its kind, its modulus (0 in a compact list) and how many keys it has.
#[derive(Clone, Copy)]
pub struct KeyList {
    pub kind: Kind,
    pub modulus: u32,
    pub count: u32,
}

// Where record i starts.
fn place(kind: Kind, i: usize) -> usize
    requires { i ≤ 1000 }
    ensures { result ≡ place_of kind i }
{
    match kind {
        Kind::Assigned => 6 + i * 14,
        Kind::Compact => i * 10,
    }
}

// A record's second byte.
fn letter(kind: Kind) -> u8
    ensures { result ≡ letter_of kind }
{
    match kind {
        Kind::Assigned => 0x56,
        Kind::Compact => 0x43,
    }
}

// How many records so many bytes have room for.
fn records_in(kind: Kind, bytes: usize) -> usize
    ensures { result ≡ records_in kind bytes }
{
    match kind {
        Kind::Assigned => bytes.saturating_sub(6) / 14,
        Kind::Compact => bytes / 10,
    }
}

// 4B and the second byte stand at a place.
fn is_marked(bytes: &[u8], at: usize, second: u8) -> bool
    requires { at + 1 < length bytes.now }
    ensures { result ≡ marked bytes.now at second }
{
    if bytes[at] != 0x4b {
        return false;
    }
    bytes[at + 1] == second
}

// Each of the first n records starts with its two bytes.
fn records_are(kind: Kind, bytes: &[u8], n: usize) -> bool
    requires { (n ≤ 1000) × (place_of kind n ≤ length bytes.now) }
    ensures { result ≡ records_are kind bytes.now n }
{
    let second = letter(kind);
    for i in 0..n {
        if !is_marked(bytes, place(kind, i), second) {
            return false;
        }
    }
    true
}

// Whole records, at most 1,000, up to the last byte.
fn is_shaped(kind: Kind, bytes: &[u8]) -> bool
    ensures { result ≡ shaped kind bytes.now }
{
    let n = records_in(kind, bytes.len());
    if 1000 < n {
        return false;
    }
    if place(kind, n) != bytes.len() {
        return false;
    }
    records_are(kind, bytes, n)
}

// The modulus of a list, if its kind has one.
fn modulus_in(kind: Kind, bytes: &[u8]) -> u32
    ensures { result ≡ list_modulus kind bytes.now }
{
    match kind {
        Kind::Assigned => extract_g_window(bytes, 16, 32),
        Kind::Compact => 0,
    }
}

// The first shape, with a modulus that is not too large.
fn is_assigned(bytes: &[u8]) -> bool
    ensures { result ≡ assigned_list bytes.now }
{
    if !is_shaped(Kind::Assigned, bytes) {
        return false;
    }
    if !is_marked(bytes, 0, 0x4d) {
        return false;
    }
    modulus_in(Kind::Assigned, bytes) <= 65536
}

// The second, of one record or more.
fn is_compact(bytes: &[u8]) -> bool
    ensures { result ≡ compact_list bytes.now }
{
    if bytes.len() == 0 {
        return false;
    }
    is_shaped(Kind::Compact, bytes)
}

// The kind of a list; 19 of what is none.
fn kind_of(bytes: &[u8]) -> Result<Kind, Refusal>
    ensures number { number_of result ≡ kind_no bytes.now }
    ensures kind { IfOk result (λ kind. kind ≡ list_kind bytes.now) }
{
    if is_assigned(bytes) {
        return Ok(Kind::Assigned);
    }
    if is_compact(bytes) {
        return Ok(Kind::Compact);
    }
    Err(Refusal::BadList)
}

// How many of n records have a value.
fn value_count(kind: Kind, n: usize) -> usize
    ensures { result ≡ value_count kind n }
{
    match kind {
        Kind::Assigned => n,
        Kind::Compact => 0,
    }
}

// The keys or the values have no room.
fn lacks_list(kind: Kind, n: usize, keys: usize, values: usize) -> bool
    ensures { result ≡ lacks_list kind n keys values }
{
    if keys < n {
        return true;
    }
    values < value_count(kind, n)
}

// One word a key.
fn read_keys(kind: Kind, bytes: &[u8], n: usize, keys: &mut [u64])
    requires { (n ≤ 1000) × (n ≤ length keys.old) }
    ensures { keys.new ≡ over (tab (list_key kind bytes.now) n) keys.old }
{
    for i in 0..n {
        keys[i] = le64(bytes, place(kind, i) + 2);
    }
}

// The value of record i.
fn value_at(bytes: &[u8], i: usize) -> u32
    requires { i ≤ 1000 }
    ensures { result ≡ list_value bytes.now i }
{
    let at = place(Kind::Assigned, i) + 10;
    extract_g_window(bytes, (at * 8) as u64, 32)
}

// One word a value.
fn read_values(bytes: &[u8], n: usize, values: &mut [u32])
    requires { (n ≤ 1000) × (n ≤ length values.old) }
    ensures { values.new ≡ over (tab (list_value bytes.now) n) values.old }
{
    for i in 0..n {
        values[i] = value_at(bytes, i);
    }
}

// Reads a list: its keys, and the values of an assigned one. 19, 14.
pub fn read_list(bytes: &[u8], keys: &mut [u64], values: &mut [u32]) -> Result<KeyList, Refusal>
    ensures { ReadList bytes.now keys.old values.old (told_list result) keys.new values.new }
{
    let kind = kind_of(bytes)?;
    let n = records_in(kind, bytes.len());
    if lacks_list(kind, n, keys.len(), values.len()) {
        return Err(Refusal::NoRoom);
    }
    read_keys(kind, bytes, n, keys);
    read_values(bytes, value_count(kind, n), values);
    Ok(KeyList {
        kind,
        modulus: modulus_in(kind, bytes),
        count: n as u32,
    })
}
