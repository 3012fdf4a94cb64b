// The builds, exported.
ghost use Rattle.std.specs.Prelude.{◌≡◌, ◌≤◌, length};
ghost use Rattle.bdz_base.specs.Buffer.{over};
ghost use Rattle.bdz_base.specs.Refusal.{number_of};
ghost use Rattle.bdz_table.specs.Told.{told_answer, told_index};
ghost use Rattle.bdz_oracle.specs.Building.{value_count, fields_of, lengths_for, assigned_no, compact_no, ReadAssigned, ReadCompact, settled, told_built, ToldAssigned, ToldCompact};
ghost use Rattle.bdz_oracle.specs.Keys.{key_count};

use super::reading::{read_keys, read_values, room_no};
use bdz_base::refusal::Refusal;
use bdz_table::build::{build_assigned, build_compact};
use bdz_table::index::{Built, Index, refused};
use bdz_table::needs::{Lengths, early_assigned, early_compact};
use bdz_table::pairs::Pair;

// The number of an answer and its index; "with every other field zero" of a refusal.
fn told_of(built: Result<Index, Refusal>) -> Built
    ensures { result ≡ told_index built }
{
    match built {
        Ok(index) => Built { no: 0, index },
        Err(refusal) => refused(u32::from(refusal)),
    }
}

// The numbers of an index, one word each; zeros of a refusal, whose number is answered.
pub(crate) fn tell(opened: Result<Index, Refusal>, answer: &mut [u64]) -> u32
    requires { 5 ≤ length answer.old }
    ensures number { result ≡ (told_index opened).no }
    ensures words { answer.new ≡ over (fields_of (told_index opened).index) answer.old }
{
    let told = told_of(opened);
    let index = told.index;
    answer[0] = index.n as u64;
    answer[1] = index.m as u64;
    answer[2] = index.seed;
    answer[3] = index.modulus as u64;
    answer[4] = index.width as u64;
    told.no
}

// The early checks of an assigned build, and where they are passed its keys and values, read into their rooms.
fn read_assigned(
    keys: &[u8],
    values: &[u8],
    modulus: u32,
    table: usize,
    degrees: usize,
    xors: usize,
    queue: usize,
    order: usize,
    marks: usize,
    seen: usize,
    key_room: &mut [u64],
    value_room: &mut [u32],
) -> Result<usize, Refusal>
    ensures { ReadAssigned (assigned_no (key_count keys.now) (value_count values.now) modulus (length key_room.old) (length value_room.old) (lengths_for table degrees xors queue order marks 0 seen)) keys.now values.now key_room.old value_room.old (told_answer result) key_room.new value_room.new }
{
    let count = keys.len() / 8;
    let given = values.len() / 4;
    let lent = Lengths {
        table,
        degrees,
        xors,
        queue,
        order,
        marks,
        occupancy: 0,
        seen,
    };
    let early = early_assigned(count, given, modulus, lent);
    let judged = room_no(value_room.len(), given, early);
    room_no(key_room.len(), count, judged)?;
    read_keys(keys, count, key_room);
    read_values(values, given, value_room);
    Ok(count)
}

// The same of a compact build.
fn read_compact(
    keys: &[u8],
    table: usize,
    degrees: usize,
    xors: usize,
    queue: usize,
    order: usize,
    marks: usize,
    occupancy: usize,
    key_room: &mut [u64],
) -> Result<usize, Refusal>
    ensures { ReadCompact (compact_no (key_count keys.now) (length key_room.old) (lengths_for table degrees xors queue order marks occupancy 0)) keys.now key_room.old (told_answer result) key_room.new }
{
    let count = keys.len() / 8;
    let lent = Lengths {
        table,
        degrees,
        xors,
        queue,
        order,
        marks,
        occupancy,
        seen: 0,
    };
    let early = early_compact(count, lent);
    room_no(key_room.len(), count, early)?;
    read_keys(keys, count, key_room);
    Ok(count)
}

// The refusal of what came before a build, or what the build came to.
fn settle(read: Result<usize, Refusal>, built: Result<Index, Refusal>) -> Result<Index, Refusal>
    ensures { told_index result ≡ settled (number_of read) (told_index built) }
{
    read?;
    built
}

// The number of a build and those of its index, one word each.
fn tell_built(read: Result<usize, Refusal>, built: Result<Index, Refusal>, answer: &mut [u64; 6])
    ensures { answer.new ≡ told_built (settled (number_of read) (told_index built)) }
{
    let told = told_of(settle(read, built));
    let index = told.index;
    *answer = [
        told.no as u64,
        index.n as u64,
        index.m as u64,
        index.seed,
        index.modulus as u64,
        index.width as u64,
    ];
}

// The assigned build of keys and values that come as bytes, and its answer told. 14 where they have no room, then the build's own
// numbers. A refused build has no keys here, so that it touches nothing.
#[unsafe(no_mangle)]
pub extern "C" fn bdz_build_assigned(
    keys: &[u8],
    values: &[u8],
    modulus: u32,
    key_room: &mut [u64],
    value_room: &mut [u32],
    table: &mut [u32],
    degrees: &mut [u8],
    xors: &mut [u32],
    queue: &mut [u32],
    order: &mut [Pair],
    marks: &mut [u8],
    seen: &mut [u8],
    answer: &mut [u64; 6],
)
    ensures { ToldAssigned keys.now values.now modulus key_room.old value_room.old table.old degrees.old xors.old queue.old order.old marks.old seen.old key_room.new value_room.new table.new degrees.new xors.new queue.new order.new marks.new seen.new answer.new }
{
    let read = read_assigned(
        keys,
        values,
        modulus,
        table.len(),
        degrees.len(),
        xors.len(),
        queue.len(),
        order.len(),
        marks.len(),
        seen.len(),
        key_room,
        value_room,
    );
    let count = read.unwrap_or(0);
    let built = build_assigned(
        &key_room[..count],
        &value_room[..count],
        modulus,
        table,
        degrees,
        xors,
        queue,
        order,
        marks,
        seen,
    );
    tell_built(read, built, answer);
}

// The compact build, likewise.
#[unsafe(no_mangle)]
pub extern "C" fn bdz_build_compact(
    keys: &[u8],
    key_room: &mut [u64],
    table: &mut [u32],
    occupancy: &mut [u8],
    degrees: &mut [u8],
    xors: &mut [u32],
    queue: &mut [u32],
    order: &mut [Pair],
    marks: &mut [u8],
    answer: &mut [u64; 6],
)
    ensures { ToldCompact keys.now key_room.old table.old occupancy.old degrees.old xors.old queue.old order.old marks.old key_room.new table.new occupancy.new degrees.new xors.new queue.new order.new marks.new answer.new }
{
    let read = read_compact(
        keys,
        table.len(),
        degrees.len(),
        xors.len(),
        queue.len(),
        order.len(),
        marks.len(),
        occupancy.len(),
        key_room,
    );
    let count = read.unwrap_or(0);
    let built = build_compact(
        &key_room[..count],
        table,
        occupancy,
        degrees,
        xors,
        queue,
        order,
        marks,
    );
    tell_built(read, built, answer);
}
