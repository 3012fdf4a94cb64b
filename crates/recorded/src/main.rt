// Replays recorded answers: computes the answer of each line of two files again, and prints how many lines are the
// same.
#![tactic(auto)]

mod judge;
mod lines;

ghost use Rattle.std.specs.Prelude.{◌≡◌, ◌<◌, ◌≤◌, length, IfSome};

use bdz_base::mix::splitmix64;
use bdz_base::refusal::Refusal;
use bdz_base::verts::Kind;
use bdz_image::open::{open_compact, open_packed};
use bdz_image::size::image_len;
use bdz_image::write::write_image;
use bdz_list::list::read_list;
use bdz_table::build::{build_assigned_small, build_compact_small};
use bdz_table::rank::supers_from_occ_bytes;
use std::fs::File;
use std::io;
use std::io::Read;
use std::rt::Files;

// The longest file that is read, in bytes.
const LONGEST: usize = 65536;

// Where the replay of a file stands: the place of the next line, and how many lines, records and equal records came
// before it.
#[derive(Clone, Copy)]
struct Tally {
    at: usize,
    number: u64,
    records: u64,
    same: u64,
}

// Writes which line of a file differs.
fn print_difference(rt: &impl Print, name: &str, number: u64) -> io::Result<()> {
    println!(rt; "{name}:{number} differs")
}

// Writes how many records a file has, and how many of them are the same.
fn print_summary(rt: &impl Print, name: &str, records: u64, same: u64) -> io::Result<()> {
    println!(rt; "{name} lines={records} same={same}")
}

// Writes that a file cannot be read.
fn print_unreadable(rt: &impl Print, name: &str) -> io::Result<()> {
    println!(rt; "{name} unreadable")
}

// What a line is found to be.
#[derive(Clone, Copy)]
enum Finding {
    NoRecord,
    Same,
    Different,
}

// The finding on a line.
fn finding_of(line: &[u8]) -> Finding {
    if !lines::is_record(line) {
        return Finding::NoRecord;
    }
    let Some(record) = lines::read_record(line) else {
        return Finding::Different;
    };
    if judge::agrees(&record) {
        return Finding::Same;
    }
    Finding::Different
}

// The tally after a line, whose next one is at `next`.
fn counted(tally: Tally, next: usize, finding: Finding) -> Tally
    requires number { tally.number ≤ tally.at }
    requires records { tally.records ≤ tally.at }
    requires same { tally.same ≤ tally.at }
    requires later { tally.at < next }
    ensures at { result.at ≡ next }
    ensures number { result.number ≤ next }
    ensures records { result.records ≤ next }
    ensures same { result.same ≤ next }
{
    let mut after = tally;
    after.at = next;
    after.number = tally.number + 1;
    match finding {
        Finding::NoRecord => after,
        Finding::Same => {
            after.records = tally.records + 1;
            after.same = tally.same + 1;
            after
        }
        Finding::Different => {
            after.records = tally.records + 1;
            after
        }
    }
}

// The tally after the line at its place.
fn replay_line(text: &[u8], tally: Tally) -> Tally
    requires number { tally.number ≤ tally.at }
    requires records { tally.records ≤ tally.at }
    requires same { tally.same ≤ tally.at }
    requires inside { tally.at < length text.now }
    ensures later { tally.at < result.at }
    ensures inside { result.at ≤ length text.now }
    ensures number { result.number ≤ result.at }
    ensures records { result.records ≤ result.at }
    ensures same { result.same ≤ result.at }
{
    let at = tally.at;
    let end = lines::line_end(text, at);
    let next = lines::after_line(text, end);
    counted(tally, next, finding_of(&text[at..end]))
}

// Whether the line between two tallies is a record with another answer.
fn is_different(before: Tally, after: Tally) -> bool {
    before.records < after.records && after.same == before.same
}

// Replays a file's text, line by line. Where a line differs, that is written.
fn replay_text(rt: &impl Print, name: &str, text: &[u8]) -> io::Result<()> {
    let mut tally = Tally {
        at: 0,
        number: 0,
        records: 0,
        same: 0,
    };
    // lines are of different lengths, and each is counted with its number
    while tally.at < text.len() {
        let after = replay_line(text, tally);
        if is_different(tally, after) {
            print_difference(rt, name, after.number)?;
        }
        tally = after;
    }
    print_summary(rt, name, tally.records, tally.same)
}

// Reads until there is no more room, the file ends or a read fails, and answers how many bytes came.
fn read_full(file: &mut impl Read, out: &mut [u8]) -> usize
    ensures { result ≤ length out.new }
{
    let mut done: usize = 0;
    // a read gives as many bytes as it likes, so that there is no range to go over
    while done < out.len() {
        match file.read(&mut out[done..]) {
            Ok(0) => return done,
            Ok(n) => done += n,
            Err(_) => return done,
        }
    }
    done
}

// The first bytes of a file, as many as there is room for; none where it cannot be opened.
fn read_file(rt: &impl Files, name: &str, out: &mut [u8]) -> Option<usize>
    ensures { IfSome result (λ n. n ≤ length out.new) }
{
    match File::open(rt, name) {
        Ok(mut file) => Some(read_full(&mut file, out)),
        Err(_) => None,
    }
}

// Reads a file, and replays it. The buffer has one byte more than the longest file, so that a longer one is seen.
fn replay_file(rt: &(impl Files + Print), name: &str) -> io::Result<()> {
    let mut buffer = [0u8; 65537];
    match read_file(rt, name, &mut buffer) {
        Some(size) if size <= LONGEST => replay_text(rt, name, &buffer[..size]),
        _ => print_unreadable(rt, name),
    }
}

// Document 01's "Numbers to hold it to": the rows that run. What each must answer is written here, from document 01.

// The number that a call answers: 0 means accepted.
fn number_of<T: Copy>(answer: Result<T, Refusal>) -> u32 {
    match answer {
        Ok(_) => 0,
        Err(refusal) => u32::from(refusal),
    }
}

// Writes the image of compact key 7, and answers its length.
fn compact_image(image: &mut [u8]) -> Result<u64, Refusal> {
    let mut table = [0u32; 1];
    let mut occ = [0u8; 1];
    let mut bytes = [0u8; 1];
    let mut words = [0u32; 1];
    let mut queue = [0u32; 1];
    let mut marks = [0u8; 1];
    let index = build_compact_small(
        &[7u64; 1], &mut table, &mut occ, &mut bytes, &mut words, &mut queue, &mut marks,
    )?;
    write_image(index, &table, &occ, image)?;
    Ok(image_len(index))
}

// The number that a build of key 7 with value 5 is refused by, at most one byte being lent for the seen values.
fn assigned_no(modulus: u32, table: &mut [u32]) -> u32 {
    let mut bytes = [0u8; 1];
    let mut words = [0u32; 1];
    let mut queue = [0u32; 1];
    let mut marks = [0u8; 1];
    let mut seen = [0u8; 1];
    number_of(build_assigned_small(
        &[7u64; 1], &[5u32; 1], modulus, table, &mut bytes, &mut words, &mut queue, &mut marks,
        &mut seen,
    ))
}

// The number that opening the first bytes of an image answers.
fn opened(kind: Kind, image: &[u8], len: usize) -> u32 {
    if image.len() < len {
        return 99;
    }
    match kind {
        Kind::Assigned => number_of(open_packed(&image[0..len], len as u64)),
        Kind::Compact => number_of(open_compact(&image[0..len], len as u64)),
    }
}

// "One compact key: 34 bytes, the last two 00 01."
fn one_compact_key() -> bool {
    let mut image = [255u8; 35];
    if compact_image(&mut image) != Ok(34) {
        return false;
    }
    if image[32] != 0 {
        return false;
    }
    if image[33] != 1 {
        return false;
    }
    image[34] == 255
}

// "Lengths 0, 31, 32 and one short", of a compact image of 34 bytes.
fn compact_lengths() -> bool {
    let mut image = [0u8; 34];
    if compact_image(&mut image) != Ok(34) {
        return false;
    }
    if opened(Kind::Compact, &image, 0) != 7 {
        return false;
    }
    if opened(Kind::Compact, &image, 31) != 7 {
        return false;
    }
    if opened(Kind::Compact, &image, 32) != 7 {
        return false;
    }
    if opened(Kind::Compact, &image, 33) != 7 {
        return false;
    }
    opened(Kind::Compact, &image, 34) == 0
}

// The same of document 01's 33 bytes for key 7: 32 is one short.
fn assigned_lengths(image: &[u8]) -> bool {
    if opened(Kind::Assigned, image, 0) != 6 {
        return false;
    }
    if opened(Kind::Assigned, image, 31) != 6 {
        return false;
    }
    if opened(Kind::Assigned, image, 32) != 7 {
        return false;
    }
    opened(Kind::Assigned, image, 33) == 0
}

// "2^30 and 2^30+1 as modulus": the one is not too large, and has no room here; the other is.
fn largest_modulus() -> bool {
    let mut table = [0u32; 1];
    if assigned_no(1_073_741_824, &mut table) != 14 {
        return false;
    }
    if assigned_no(1_073_741_825, &mut table) != 13 {
        return false;
    }
    assigned_no(6, &mut table) == 0
}

// The super counts of m ones are these; a third one that is not needed is left as it was.
fn counts_are(m: u32, second: u32, third: u32) -> bool {
    let mut supers = [9u32; 3];
    if number_of(supers_from_occ_bytes(m, &[255u8; 65], &mut supers)) != 0 {
        return false;
    }
    if supers[0] != 0 {
        return false;
    }
    if supers[1] != second {
        return false;
    }
    supers[2] == third
}

// "super counts at 511, 512, 513", of ones alone.
fn super_counts() -> bool {
    if !counts_are(511, 511, 9) {
        return false;
    }
    if !counts_are(512, 512, 9) {
        return false;
    }
    if !counts_are(513, 512, 513) {
        return false;
    }
    let mut few = [9u32; 2];
    number_of(supers_from_occ_bytes(513, &[255u8; 65], &mut few)) == 14
}

// Whether the keys of a compact list are built, and with the first seed or not, as is said.
fn first_seed(list: &[u8], first: bool) -> bool {
    let mut keys = [0u64; 1000];
    let mut values = [0u32; 1000];
    let Ok(listed) = read_list(list, &mut keys, &mut values) else {
        return false;
    };
    match keys.get(..listed.count as usize) {
        Some(keys) => seed_is_first(keys, first),
        None => false,
    }
}

fn seed_is_first(keys: &[u64], first: bool) -> bool {
    let mut table = [0u32; 2048];
    let mut occ = [0u8; 256];
    let mut bytes = [0u8; 2048];
    let mut words = [0u32; 2048];
    let mut queue = [0u32; 2048];
    let mut marks = [0u8; 2048];
    let built = build_compact_small(
        keys, &mut table, &mut occ, &mut bytes, &mut words, &mut queue, &mut marks,
    );
    match built {
        Ok(index) => (index.seed == splitmix64(0x9e37_79b9_7f4a_7c15).seed) == first,
        Err(_) => false,
    }
}

// Writes what a row of document 01 is found to be.
fn print_row(rt: &impl Print, what: &str, same: bool) -> io::Result<()> {
    let found = if same { "same" } else { "differs" };
    println!(rt; "{what}: {found}")
}

// What a row is that a file holds the bytes of: that an image opens at its own length alone, or that the keys of a list
// are built with the first seed, or with a later one.
#[derive(Clone, Copy)]
enum Row {
    Image,
    FirstSeed,
    LaterSeed,
}

// Replays a row that a file holds the bytes of.
fn replay_bytes(rt: &(impl Files + Print), what: &str, name: &str, row: Row) -> io::Result<()> {
    let mut buffer = [0u8; 14007];
    let Some(size) = read_file(rt, name, &mut buffer) else {
        return print_unreadable(rt, name);
    };
    let bytes = &buffer[..size];
    let same = match row {
        Row::Image => assigned_lengths(bytes),
        Row::FirstSeed => first_seed(bytes, true),
        Row::LaterSeed => first_seed(bytes, false),
    };
    print_row(rt, what, same)
}

// Replays the rows of document 01 that run.
fn replay_rows(rt: &(impl Files + Print)) -> io::Result<()> {
    print_row(rt, "one compact key", one_compact_key())?;
    print_row(rt, "compact lengths", compact_lengths())?;
    replay_bytes(rt, "assigned lengths", "key7.bdz", Row::Image)?;
    print_row(rt, "largest modulus", largest_modulus())?;
    print_row(rt, "super counts", super_counts())?;
    replay_bytes(rt, "degree 255", "degree255.lst", Row::FirstSeed)?;
    replay_bytes(rt, "degree 256", "degree256.lst", Row::LaterSeed)
}

// Replays the published vectors, the answers of the Rust original, and the rows of document 01.
fn main(rt: HostRuntime) -> io::Result<()> {
    replay_file(&rt, "published.txt")?;
    replay_file(&rt, "rust.txt")?;
    replay_rows(&rt)
}
