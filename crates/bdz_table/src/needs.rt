// What a build has to be lent, and the checks before anything is touched.
ghost use Rattle.std.specs.Prelude.{◌≡◌, ◌^◌, ◌≤◌, nat_lt};
ghost use Rattle.bdz_base.specs.Refusal.{number_of};
ghost use Rattle.bdz_table.specs.Build.{size_for, vertices_for, if_many, occupancy_need, seen_need, needs_of, lacks_room, assigned_early, compact_early};

use super::index::Needs;
use bdz_base::refusal::Refusal;
use bdz_base::size::{compact_vertex_count, occ_packed_bytes, vertex_count};
use bdz_base::verts::Kind;

// How much of each buffer is lent.
#[derive(Clone, Copy)]
pub struct Lengths {
    pub table: usize,
    pub degrees: usize,
    pub xors: usize,
    pub queue: usize,
    pub order: usize,
    pub marks: usize,
    pub occupancy: usize,
    pub seen: usize,
}

fn size_for(kind: Kind, n: u32) -> u64
    ensures { result ≡ size_for kind n }
{
    match kind {
        Kind::Assigned => vertex_count(n),
        Kind::Compact => compact_vertex_count(n),
    }
}

// The vertices of n keys: none for none, one for one.
pub(crate) fn vertices_for(kind: Kind, n: u32) -> u64
    ensures { result ≡ vertices_for kind n }
{
    if n == 0 {
        return 0;
    }
    if n == 1 {
        return 1;
    }
    size_for(kind, n)
}

// A need of two keys or more.
fn if_many(n: u32, need: u64) -> u64
    ensures { result ≡ if_many n need }
{
    if n < 2 {
        return 0;
    }
    need
}

fn occupancy_need(kind: Kind, m: u64) -> u64
    requires { m ≤ 2 ^ 34 }
    ensures { result ≡ occupancy_need kind m }
{
    match kind {
        Kind::Assigned => 0,
        Kind::Compact => (m + 7) / 8,
    }
}

fn seen_need(kind: Kind, n: u32, modulus: u32) -> u64
    ensures { result ≡ seen_need kind n modulus }
{
    if n == 0 {
        return 0;
    }
    match kind {
        Kind::Assigned => occ_packed_bytes(modulus),
        Kind::Compact => 0,
    }
}

// What a build of n keys needs to be lent.
pub fn needs(kind: Kind, n: u32, modulus: u32) -> Needs
    ensures { result ≡ needs_of kind n modulus }
{
    let m = vertices_for(kind, n);
    Needs {
        table: m,
        vertices: if_many(n, m),
        order: if_many(n, n as u64),
        occupancy: occupancy_need(kind, m),
        seen: seen_need(kind, n, modulus),
    }
}

fn shorter(lent: usize, need: u64) -> bool
    ensures { result ≡ nat_lt lent need }
{
    (lent as u64) < need
}

// Whether a buffer is shorter than its need.
fn lacks_room(need: Needs, lent: Lengths) -> bool
    ensures { result ≡ lacks_room need lent }
{
    let table = shorter(lent.table, need.table);
    let degrees = shorter(lent.degrees, need.vertices);
    let xors = shorter(lent.xors, need.vertices);
    let queue = shorter(lent.queue, need.vertices);
    let order = shorter(lent.order, need.order);
    let marks = shorter(lent.marks, need.vertices);
    let occupancy = shorter(lent.occupancy, need.occupancy);
    let seen = shorter(lent.seen, need.seen);
    table | (degrees | (xors | (queue | (order | (marks | (occupancy | seen))))))
}

// The checks of an assigned build before anything is touched.
pub fn early_assigned(n: usize, values: usize, modulus: u32, lent: Lengths) -> Result<(), Refusal>
    ensures { number_of result ≡ assigned_early n values modulus lent }
{
    if n != values {
        return Err(Refusal::AssignedLen);
    }
    if n == 0 {
        return Ok(());
    }
    if modulus == 0 {
        return Err(Refusal::AssignedModulus);
    }
    if 0x4000_0000 < n {
        return Err(Refusal::TooLarge);
    }
    if 0x4000_0000 < modulus {
        return Err(Refusal::TooLarge);
    }
    if lacks_room(needs(Kind::Assigned, n as u32, modulus), lent) {
        return Err(Refusal::NoRoom);
    }
    Ok(())
}

// The same of a compact build.
pub fn early_compact(n: usize, lent: Lengths) -> Result<(), Refusal>
    ensures { number_of result ≡ compact_early n lent }
{
    if n == 0 {
        return Ok(());
    }
    if 0x4000_0000 < n {
        return Err(Refusal::TooLarge);
    }
    if lacks_room(needs(Kind::Compact, n as u32, n as u32), lent) {
        return Err(Refusal::NoRoom);
    }
    Ok(())
}
