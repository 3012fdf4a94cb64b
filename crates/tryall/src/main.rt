// Tries every listed key on the written image: reads keys.lst and index.bdz, feeds the pages of the file and prints two
// lines, or one refusal. Nothing is printed before all answers are in.
#![tactic(auto)]

ghost use Rattle.std.specs.Prelude.{◌≤◌, length, IfOk, Some};
ghost use Rattle.bdz_base.specs.Text.{line_of};

use bdz_base::refusal::{Refusal, refusal_text};
use bdz_base::verts::Kind;
use bdz_image::feed::{feed_ask, feed_page, feed_start};
use bdz_image::open::{open_compact, open_packed};
use bdz_image::page::g_page_need;
use bdz_image::parts::{body_off, end_off, occ_off};
use bdz_list::list::read_list;
use bdz_list::tally::{first_holders, same_values};
use bdz_table::index::Index;
use bdz_table::rank::supers_from_occ_bytes;
use std::fs::File;
use std::io::{Read, Seek, SeekFrom, Write};
use std::rt::Files;
use std::{fmt, io, str};

// A refusal in a line, as "8 bad magic". It stands in both programs: the libraries print nothing, and name nothing of
// std that does.
#[derive(Clone, Copy)]
struct Line(Refusal);

impl fmt::Display for Line {
    ghost output = { λ line. Some (line_of line.0) };

    fn fmt<W: fmt::Write>(&self, f: &mut fmt::Formatter<W>) -> fmt::Result {
        let no = u32::from(self.0);
        let text = refusal_text(no);
        write!(f, "{no} {text}")
    }
}

// What follows up to `read_full` stands in build_index too: a library's public function has a promise that leaves one
// answer, which nothing that reads a file can give.
//
// Tells standard error what the system said of a file, as "keys.lst: Permission denied": its words alone, without the
// number that std puts behind them. Where standard error takes nothing, nobody is told.
fn tell(rt: &impl Eprint, path: &str, error: &io::Error) {
    let mut room = [0u8; 320];
    let mut rest: &mut [u8] = &mut room;
    let _ = write!(rest, "{error}");
    let text = str::from_utf8(&room).unwrap_or("");
    let words = match text.split_once(" (os error ") {
        Some((words, _)) => words,
        None => text.trim_end_matches('\0'),
    };
    let _ = eprintln!(rt; "{path}: {words}");
}

// Reads until there is no more room, the file ends or a read fails: how many bytes came, and how it ended.
fn read_full(file: &mut impl Read, out: &mut [u8]) -> (usize, io::Result<()>)
    ensures { result.0 ≤ length out.new }
{
    let mut done: usize = 0;
    // a read gives as many bytes as it likes, so that there is no range to go over
    while done < out.len() {
        match file.read(&mut out[done..]) {
            Ok(0) => return (done, Ok(())),
            Ok(n) => done += n,
            Err(error) => return (done, Err(error)),
        }
    }
    (done, Ok(()))
}

// What was read of a file, and how long the whole of it is.
#[derive(Clone, Copy)]
struct Held {
    read: usize,
    len: u64,
}

// A read that failed looks like the file's end; at the end one read more gives nothing. A file that only grew meanwhile
// is refused too, and the system has no error for that but its number 0. Of a file longer than the room its end is
// asked for, through the same descriptor.
fn read_open<F: Read + Seek>(file: &mut F, out: &mut [u8]) -> io::Result<Held>
    ensures { IfOk result (λ held. held.read ≤ length out.new) }
{
    let (n, ended) = read_full(file, out);
    if out.len() <= n {
        let end = file.seek(SeekFrom::End(0)).unwrap_or(0);
        return Ok(Held {
            read: n,
            len: end.max(n as u64),
        });
    }
    if file.read(&mut out[n..])? != 0 {
        ended?;
        return Err(io::Error::from_raw_os_error(0));
    }
    Ok(Held {
        read: n,
        len: n as u64,
    })
}

fn open_and_read(rt: &impl Files, path: &str, out: &mut [u8]) -> io::Result<Held>
    ensures { IfOk result (λ held. held.read ≤ length out.new) }
{
    let mut file = File::open(rt, path)?;
    read_open(&mut file, out)
}

// The bytes of a file, as many as there is room for, and its length, both through one descriptor. A file that cannot be
// read counts as empty, and standard error says why.
fn read_file(rt: &(impl Files + Eprint), path: &str, out: &mut [u8]) -> Held
    ensures { result.read ≤ length out.new }
{
    match open_and_read(rt, path, out) {
        Ok(held) => held,
        Err(error) => {
            tell(rt, path, &error);
            Held { read: 0, len: 0 }
        }
    }
}

fn say(rt: &impl Print, what: &[u8], number: u64) -> io::Result<()> {
    rt.write_all(what)?;
    rt.print(number)
}

// The magic, n, m and width of an opened image.
fn say_image(rt: &impl Print, index: Index) -> io::Result<()> {
    let kind = index.kind;
    match kind {
        Kind::Assigned => say(rt, b"image BDZ2 n=", index.n as u64)?,
        Kind::Compact => say(rt, b"image BDZ3 n=", index.n as u64)?,
    }
    say(rt, b" m=", index.m as u64)?;
    say(rt, b" bits=", index.width as u64)?;
    rt.write_all(b"\n")
}

fn say_keys(rt: &impl Print, keys: u64, same: u64) -> io::Result<()> {
    say(rt, b"keys=", keys)?;
    say(rt, b" same=", same)?;
    if same <= keys {
        say(rt, b" other=", keys - same)?;
    }
    rt.write_all(b"\n")
}

// The listed pages, from the file, up to the first that is refused.
fn feed_all(
    index: Index,
    keys: u64,
    table: &[u8],
    pages: &[u32],
    order: &[u64],
    slots: &mut [u64],
) -> Result<(), Refusal> {
    for page in pages {
        feed_one(index, keys, table, *page, order, slots)?;
    }
    Ok(())
}

fn feed_one(
    index: Index,
    keys: u64,
    table: &[u8],
    page: u32,
    order: &[u64],
    slots: &mut [u64],
) -> Result<(), Refusal> {
    let start = page as u64 * 4096;
    let end = start + g_page_need(table.len() as u64, page);
    let bytes = table
        .get(start as usize..end as usize)
        .ok_or(Refusal::NoRoom)?;
    feed_page(index, keys, page, bytes, order, slots)
}

// The answer for each key, up to the first that is refused.
fn ask_all(
    index: Index,
    keys: &[u64],
    occ: &[u8],
    supers: &[u32],
    slots: &[u64],
    answers: &mut [u32],
) -> Result<(), Refusal> {
    let count = keys.len() as u64;
    if (answers.len() as u64) < count {
        return Err(Refusal::NoRoom);
    }
    for (answer, position) in answers.iter_mut().zip(0..count) {
        *answer = feed_ask(index, count, keys, position, occ, supers, slots)?;
    }
    Ok(())
}

// A feed over the table's bytes, from its start to the last answer.
fn answer_all(
    index: Index,
    keys: &[u64],
    table: &[u8],
    occ: &[u8],
    supers: &[u32],
    answers: &mut [u32],
) -> Result<(), Refusal> {
    let mut order = [0u64; 3000];
    let mut slots = [0u64; 3000];
    let mut pages = [0u32; 6000];
    let feed = feed_start(index, keys, occ, &mut order, &mut slots, &mut pages)?;
    let listed = pages.get(..feed.pages as usize).ok_or(Refusal::NoRoom)?;
    feed_all(index, feed.keys, table, listed, &order, &mut slots)?;
    ask_all(index, keys, occ, supers, &slots, answers)
}

// How many answers are right.
fn right(index: Index, values: &[u32], answers: &[u32]) -> Result<u64, Refusal> {
    match index.kind {
        Kind::Assigned => Ok(same_values(values, answers)),
        Kind::Compact => {
            let mut seen = [0u8; 8193];
            first_holders(above_answers(index.n), answers, &mut seen)
        }
    }
}

// A number that every answer is below: an answer is at most m, so past that n says nothing, and in an index of no keys
// it is 0.
fn above_answers(n: u32) -> u32 {
    n.clamp(1, 65537)
}

// The super counts of a compact image's own occupancy; an assigned one has none.
fn count_supers(kind: Kind, m: u32, occ: &[u8], supers: &mut [u32]) -> Result<(), Refusal> {
    match kind {
        Kind::Assigned => Ok(()),
        Kind::Compact => supers_from_occ_bytes(m, occ, supers),
    }
}

// Every key on an opened image, whose parts bdz_image names: how many answers are right. That the parts lie within the
// file is proved of every image that opens.
fn try_index(index: Index, keys: &[u64], values: &[u32], file: &[u8]) -> Result<u64, Refusal> {
    if 65536 < index.m {
        return Err(Refusal::NoRoom);
    }
    let start = body_off(index) as usize;
    let middle = occ_off(index) as usize;
    let end = end_off(index) as usize;
    let table = file.get(start..middle).ok_or(Refusal::GLength)?;
    let occ = file.get(middle..end).ok_or(Refusal::GLength)?;
    let mut supers = [0u32; 130];
    count_supers(index.kind, index.m, occ, &mut supers)?;
    let mut answers = [0u32; 1000];
    answer_all(index, keys, table, occ, &supers, &mut answers)?;
    let answers = answers.get(..keys.len()).ok_or(Refusal::NoRoom)?;
    right(index, values, answers)
}

// What every key was tried on, how many keys there are, and how many answers are right.
#[derive(Clone, Copy)]
struct Tried {
    index: Index,
    keys: u64,
    same: u64,
}

// The list is judged first; its kind names the opener.
fn try_all(rt: &(impl Files + Eprint)) -> Result<Tried, Refusal> {
    let mut bytes = [0u8; 14007];
    let n = read_file(rt, "keys.lst", &mut bytes).read;
    let mut keys = [0u64; 1000];
    let mut values = [0u32; 1000];
    let list = read_list(&bytes[0..n], &mut keys, &mut values)?;
    let count = list.count as usize;
    let keys = keys.get(..count).ok_or(Refusal::NoRoom)?;
    let values = values.get(..count).ok_or(Refusal::NoRoom)?;
    let mut file = [0u8; 270368];
    let held = read_file(rt, "index.bdz", &mut file);
    let file = &file[0..held.read];
    let index = match list.kind {
        Kind::Assigned => open_packed(file, held.len)?,
        Kind::Compact => open_compact(file, held.len)?,
    };
    let same = try_index(index, keys, values, file)?;
    Ok(Tried {
        index,
        keys: keys.len() as u64,
        same,
    })
}

fn main(rt: HostRuntime) -> io::Result<()> {
    match try_all(&rt) {
        Ok(tried) => {
            say_image(&rt, tried.index)?;
            say_keys(&rt, tried.keys, tried.same)
        }
        // one line, as "refused 8 bad magic"
        Err(refusal) => {
            let line = Line(refusal);
            println!(rt; "refused {line}")
        }
    }
}
