// Builds index.bdz from keys.lst. Prints only a refusal; a failure of the operating system goes to standard error.
#![tactic(auto)]

ghost use Rattle.std.specs.Prelude.{◌≡◌, ◌<◌, ◌≤◌, length, true, IfOk, Some};
ghost use Rattle.bdz_base.specs.Text.{line_of};
ghost use Rattle.std.specs.Str.{IsAscii};

use bdz_base::refusal::{Refusal, refusal_text};
use bdz_base::verts::Kind;
use bdz_base::words::le64;
use bdz_image::size::image_len;
use bdz_image::write::write_image;
use bdz_list::list::{KeyList, read_list};
use bdz_table::build::{build_assigned_small, build_compact_small};
use bdz_table::index::Index;
use std::fs::{File, OpenFile};
use std::io::{Read, Write};
use std::random::RandomSource;
use std::rt::Files;
use std::{fmt, fs, io, str};

// A refusal in a line, as "8 bad magic". It stands in both programs: the libraries print nothing, and name nothing of
// std that does.
#[derive(Clone, Copy)]
struct Line(Refusal);

impl fmt::Display for Line {
    ghost output = { λ line. Some (line_of line.0) };

    fn fmt<W: fmt::Write>(&self, f: &mut fmt::Formatter<W>) -> fmt::Result {
        let no = u32::from(self.0);
        let text = refusal_text(no);
        write!(f, "{no} {text}")
    }
}

// Tells standard error what the system said of a file, as "keys.lst: Permission denied": its words alone, without the
// number that std puts behind them. Where standard error takes nothing, nobody is told.
fn tell(rt: &impl Eprint, path: &str, error: &io::Error) {
    let mut room = [0u8; 320];
    let mut rest: &mut [u8] = &mut room;
    let _ = write!(rest, "{error}");
    let text = str::from_utf8(&room).unwrap_or("");
    let words = match text.split_once(" (os error ") {
        Some((words, _)) => words,
        None => text.trim_end_matches('\0'),
    };
    let _ = eprintln!(rt; "{path}: {words}");
}

// Reads until there is no more room, the file ends or a read fails: how many bytes came, and how it ended.
fn read_full(file: &mut impl Read, out: &mut [u8]) -> (usize, io::Result<()>)
    ensures { result.0 ≤ length out.new }
{
    let mut done: usize = 0;
    // a read gives as many bytes as it likes, so that there is no range to go over
    while done < out.len() {
        match file.read(&mut out[done..]) {
            Ok(0) => return (done, Ok(())),
            Ok(n) => done += n,
            Err(error) => return (done, Err(error)),
        }
    }
    (done, Ok(()))
}

// A read that failed looks like the file's end; at the end one read more gives nothing. A file that only grew meanwhile
// is refused too, and the system has no error for that but its number 0.
fn read_open(file: &mut impl Read, out: &mut [u8]) -> io::Result<usize>
    ensures { IfOk result (λ n. n ≤ length out.new) }
{
    let (n, ended) = read_full(file, out);
    if out.len() <= n {
        return Ok(n);
    }
    if file.read(&mut out[n..])? != 0 {
        ended?;
        return Err(io::Error::from_raw_os_error(0));
    }
    Ok(n)
}

fn open_and_read(rt: &impl Files, path: &str, out: &mut [u8]) -> io::Result<usize>
    ensures { IfOk result (λ n. n ≤ length out.new) }
{
    let mut file = File::open(rt, path)?;
    read_open(&mut file, out)
}

// The bytes of a file, as many as there is room for; none where it cannot be read, and then standard error says why.
fn read_file(rt: &(impl Files + Eprint), path: &str, out: &mut [u8]) -> usize
    ensures { result ≤ length out.new }
{
    match open_and_read(rt, path, out) {
        Ok(n) => n,
        Err(error) => {
            tell(rt, path, &error);
            0
        }
    }
}

// Whether both are the same bytes.
fn same_bytes(a: &[u8], b: &[u8]) -> bool
    ensures only_same { result ≡ true → a.now ≡ b.now }
    ensures all_same { a.now ≡ b.now → result ≡ true }
{
    a == b
}

// All bytes are written and stand on the disk, and the file is closed. std does not tell how the closing went, which
// comes after what the disk said of the bytes, and before they are read back.
fn put<F: Write + OpenFile + Drop>(file: F, bytes: &[u8]) -> io::Result<()> {
    let mut file = file;
    file.write_all(bytes)?;
    file.sync_all()
}

// Whether the file holds just these bytes.
fn holds(rt: &(impl Files + Eprint), path: &str, bytes: &[u8], room: &mut [u8]) -> bool {
    let n = read_file(rt, path, room);
    same_bytes(&room[0..n], bytes)
}

// The hexadecimal digit of a number below 16.
fn digit(number: u64) -> u8
    requires { number < 16 }
    ensures { result < 128 }
{
    if number < 10 {
        b'0' + number as u8
    } else {
        b'a' + (number - 10) as u8
    }
}

// The name of a new file: a number in hexadecimal, in 16 digits. By hand, as of what `write!` leaves in a slice it is not
// promised that it is text.
fn name_of(number: u64) -> [u8; 30]
    ensures { IsAscii result }
{
    let mut name = *b"index.bdz.0000000000000000.new";
    let mut rest = number;
    for i in 0usize..16 {
        name[25 - i] = digit(rest % 16);
        rest /= 16;
    }
    name
}

// A name of this run's own: 64 random bits.
fn fresh_name(rt: &impl RandomSource) -> io::Result<[u8; 30]>
    ensures { IfOk result IsAscii }
{
    let mut random = [0u8; 8];
    rt.fill_bytes(&mut random)?;
    Ok(name_of(le64(&random, 0)))
}

// A name as the text that std asks for.
fn text_of(name: &[u8; 30]) -> &str
    requires { IsAscii name.now }
{
    str::from_utf8(name).unwrap()
}

// Whether a new file of that name, on the disk, holds just these bytes. One that does not is removed.
fn made(rt: &(impl Files + Eprint), fresh: &str, bytes: &[u8], room: &mut [u8]) -> bool {
    // a name that is taken, by a link too, is refused: nothing that stands there is touched
    let created = File::options().write(true).create_new(true).open(rt, fresh);
    let file = match created {
        Ok(file) => file,
        Err(error) => {
            tell(rt, "index.bdz", &error);
            return false;
        }
    };
    if let Err(error) = put(file, bytes) {
        tell(rt, "index.bdz", &error);
        remove(rt, fresh);
        return false;
    }
    if !holds(rt, fresh, bytes, room) {
        let _ = eprintln!(rt; "index.bdz: not what was written");
        remove(rt, fresh);
        return false;
    }
    true
}

// A file that cannot be removed stays: what went wrong before is told already.
fn remove(rt: &impl Files, fresh: &str) {
    let _ = fs::remove_file(rt, fresh);
}

// The new file takes the index's name, and that too reaches the disk.
fn rename_in<R: Files + Eprint>(rt: &R, folder: &R::File, fresh: &str) {
    if let Err(error) = fs::rename(rt, fresh, "index.bdz") {
        tell(rt, "index.bdz", &error);
        remove(rt, fresh);
        return;
    }
    if let Err(error) = folder.sync_all() {
        tell(rt, ".", &error);
    }
}

// The new file stands beside the old one until it has been read back; only then does it take its name.
fn keep(rt: &(impl Files + RandomSource + Eprint), bytes: &[u8], room: &mut [u8]) {
    let name = match fresh_name(rt) {
        Ok(name) => name,
        Err(error) => {
            tell(rt, "index.bdz", &error);
            return;
        }
    };
    let folder = match File::open(rt, ".") {
        Ok(folder) => folder,
        Err(error) => {
            tell(rt, ".", &error);
            return;
        }
    };
    let fresh = text_of(&name);
    if made(rt, fresh, bytes, room) {
        rename_in(rt, &folder, fresh);
    }
}

// The image of a list's index, in the front of the lent bytes: how long it is.
fn image_of(list: &[u8], image: &mut [u8]) -> Result<usize, Refusal>
    ensures { IfOk result (λ n. n ≤ length image.new) }
{
    let mut keys = [0u64; 1000];
    let mut values = [0u32; 1000];
    let list = read_list(list, &mut keys, &mut values)?;
    let mut table = [0u32; 2048];
    let mut occupancy = [0u8; 256];
    let index = build(list, &keys, &values, &mut table, &mut occupancy)?;
    write_image(index, &table, &occupancy, image)?;
    let len = image_len(index) as usize;
    if image.len() < len {
        return Err(Refusal::NoRoom);
    }
    Ok(len)
}

// The build of a list's kind, from its keys and values without what stands behind them.
fn build(
    list: KeyList,
    keys: &[u64; 1000],
    values: &[u32; 1000],
    table: &mut [u32],
    occupancy: &mut [u8],
) -> Result<Index, Refusal> {
    let count = list.count as usize;
    let keys = keys.get(..count).ok_or(Refusal::NoRoom)?;
    let values = values.get(..count).ok_or(Refusal::NoRoom)?;
    let mut degrees = [0u8; 2048];
    let mut xors = [0u32; 2048];
    let mut queue = [0u32; 2048];
    let mut marks = [0u8; 2048];
    let mut seen = [0u8; 8192];
    match list.kind {
        Kind::Assigned => build_assigned_small(
            keys,
            values,
            list.modulus,
            table,
            &mut degrees,
            &mut xors,
            &mut queue,
            &mut marks,
            &mut seen,
        ),
        Kind::Compact => build_compact_small(
            keys,
            table,
            occupancy,
            &mut degrees,
            &mut xors,
            &mut queue,
            &mut marks,
        ),
    }
}

fn main(rt: HostRuntime) -> io::Result<()> {
    let mut list = [0u8; 14007];
    let n = read_file(&rt, "keys.lst", &mut list);
    let mut image = [0u8; 8192];
    match image_of(&list[0..n], &mut image) {
        Ok(len) => {
            let mut room = [0u8; 8193];
            keep(&rt, &image[0..len], &mut room);
            Ok(())
        }
        // one line, as "refused 8 bad magic"
        Err(refusal) => {
            let line = Line(refusal);
            println!(rt; "refused {line}")
        }
    }
}
