// Both builds: the search for a seed, the assigns along the pairs, and the scratch left as zeros.
ghost use Rattle.std.specs.Prelude.{◌≡◌, ◌≤◌, [], length, replicate};
ghost use Rattle.bdz_base.specs.Refusal.{number_of};
ghost use Rattle.bdz_base.specs.Sizes.{occupancy_bytes};
ghost use Rattle.bdz_base.specs.declared.verts.Kind.TheVariants.{Assigned, Compact};
ghost use Rattle.bdz_table.specs.Build.{assigned_table, compact_table, width_for, built_for, assigned_early, compact_early, lengths_with, BuiltAssigned, BuiltCompact};
ghost use Rattle.bdz_table.specs.Order.{own_pairs};
ghost use Rattle.bdz_table.specs.Told.{told_index};
ghost use Rattle.bdz_table.specs.Values.{values_no};
ghost use Rattle.bdz_table.specs.Steps.{Many, Shaped, RanTo, SoughtMany, Sought, told_run, cleared_if, OccupancySought, untouched_of, ReadyAssigned, ReadyCompact, Cleared};

use super::assign::part_of;
use super::graph::Graph;
use super::index::{Index, width_for};
use super::needs::{Lengths, early_assigned, early_compact, needs};
use super::pairs::{Pair, assign_all, note_order, occupy_all};
use super::seeds::find_seed;
use super::seen::judge_values;
use bdz_base::refusal::Refusal;
use bdz_base::verts::Kind;

// What a run came to: its seed, and how many pairs are still to be noted and assigned.
#[derive(Clone, Copy)]
pub(crate) struct Run {
    seed: u64,
    pairs: usize,
}

// Where nothing was searched for.
const NO_RUN: Run = Run { seed: 0, pairs: 0 };

// A build before its pairs are noted: its answer, and where the pairs are assigned; how much of the scratch and of the order it uses.
#[derive(Clone, Copy)]
pub(crate) struct Ready {
    pub(crate) built: Result<Index, Refusal>,
    pub(crate) seed: u64,
    pub(crate) m: u32,
    pub(crate) pairs: usize,
    pub(crate) vertices: usize,
    pub(crate) order: usize,
}

// The first seed that works for two keys or more. The order stays where the peeler left it; the words and the marks are zeros.
fn seek(
    keys: &[u64],
    m: u32,
    kind: Kind,
    table: &mut [u32],
    degrees: &mut [u8],
    xors: &mut [u32],
    queue: &mut [u32],
    marks: &mut [u8],
) -> Result<Run, Refusal>
    requires { Many kind keys.now m table.old degrees.old xors.old queue.old marks.old }
    ensures ran_to { RanTo kind keys.now 0 (told_run result) }
    ensures sought_many { SoughtMany kind keys.now m table.old (told_run result) table.new xors.new queue.new marks.new }
{
    let Some(seed) = find_seed(keys, m, kind, degrees, xors, queue) else {
        return Err(Refusal::GraphDidNotPeel);
    };
    table.fill(0);
    marks.fill(0);
    Ok(Run {
        seed,
        pairs: keys.len(),
    })
}

// The assigned table as far as it goes without pairs, unless the values were refused.
fn work_assigned(
    keys: &[u64],
    values: &[u32],
    modulus: u32,
    verdict: Result<(), Refusal>,
    m: u32,
    table: &mut [u32],
    degrees: &mut [u8],
    xors: &mut [u32],
    queue: &mut [u32],
    marks: &mut [u8],
) -> Result<Run, Refusal>
    requires shaped { Shaped Assigned keys.now m table.old degrees.old xors.old queue.old marks.old }
    requires values_len { length values.now ≡ length keys.now }
    ensures ran_to { RanTo Assigned keys.now (number_of verdict) (told_run result) }
    ensures sought { Sought Assigned keys.now m (assigned_table keys.now values.now modulus) table.old (told_run result) table.new xors.new queue.new marks.new }
{
    verdict?;
    if keys.len() == 1 {
        table[0] = values[0];
        return Ok(Run { seed: 1, pairs: 0 });
    }
    seek(keys, m, Kind::Assigned, table, degrees, xors, queue, marks)
}

// The occupancy of no vertex, unless the keys were refused.
fn clear_occupancy(run: Result<Run, Refusal>, occupancy: &mut [u8])
    ensures { occupancy.new ≡ cleared_if (told_run run).no occupancy.old }
{
    if run.is_ok() {
        occupancy.fill(0);
    }
}

// The compact table and occupancy as far as they go without pairs.
fn work_compact(
    keys: &[u64],
    m: u32,
    table: &mut [u32],
    occupancy: &mut [u8],
    degrees: &mut [u8],
    xors: &mut [u32],
    queue: &mut [u32],
    marks: &mut [u8],
) -> Result<Run, Refusal>
    requires shaped { Shaped Compact keys.now m table.old degrees.old xors.old queue.old marks.old }
    requires occupancy_len { length occupancy.old ≡ occupancy_bytes m }
    ensures ran_to { RanTo Compact keys.now 0 (told_run result) }
    ensures sought { Sought Compact keys.now m (compact_table keys.now) table.old (told_run result) table.new xors.new queue.new marks.new }
    ensures occupancy_sought { OccupancySought keys.now m (told_run result) occupancy.old occupancy.new }
{
    if keys.len() == 1 {
        table[0] = 0;
        occupancy[0] = 1;
        return Ok(Run { seed: 1, pairs: 0 });
    }
    let run = seek(keys, m, Kind::Compact, table, degrees, xors, queue, marks);
    clear_occupancy(run, occupancy);
    run
}

// The values judged, with the seen values zero before and after.
fn judge_part(values: &[u32], modulus: u32, seen: &mut [u8]) -> Result<(), Refusal>
    requires { length seen.old ≡ occupancy_bytes modulus }
    ensures judged { number_of result ≡ values_no modulus [] values.now }
    ensures cleared { seen.new ≡ replicate (length seen.old) 0 }
{
    seen.fill(0);
    let verdict = judge_values(values, modulus, seen);
    seen.fill(0);
    verdict
}

// The index that a run came to.
fn finish(
    kind: Kind,
    n: u32,
    m: u32,
    modulus: u32,
    run: Result<Run, Refusal>,
) -> Result<Index, Refusal>
    ensures { told_index result ≡ built_for (told_run run).no (record { kind = kind; n = n; m = m; seed = (told_run run).seed; modulus = modulus; width = width_for kind modulus }) }
{
    let seed = run?.seed;
    Ok(Index {
        kind,
        n,
        m,
        seed,
        modulus,
        width: width_for(kind, modulus),
    })
}

// What is still to be done of a run: nothing of one that was refused.
fn left_of(run: Result<Run, Refusal>) -> Run
    ensures { result ≡ record { seed = (told_run run).seed; pairs = (told_run run).pairs } }
{
    run.unwrap_or(NO_RUN)
}

// A build that touches nothing, with its answer.
fn untouched(built: Result<Index, Refusal>) -> Ready
    ensures { result ≡ untouched_of built }
{
    Ready {
        built,
        seed: 0,
        m: 0,
        pairs: 0,
        vertices: 0,
        order: 0,
    }
}

// An assigned build that has passed its early checks and has a key.
fn begin_assigned(
    keys: &[u64],
    values: &[u32],
    modulus: u32,
    order: usize,
    table: &mut [u32],
    degrees: &mut [u8],
    xors: &mut [u32],
    queue: &mut [u32],
    marks: &mut [u8],
    seen: &mut [u8],
) -> Ready
    requires some { 1 ≤ length keys.now }
    requires accepted { assigned_early (length keys.now) (length values.now) modulus (lengths_with table.old degrees.old xors.old queue.old order marks.old [] seen.old) ≡ 0 }
    ensures { ReadyAssigned keys.now values.now modulus order table.old degrees.old xors.old queue.old marks.old seen.old result table.new degrees.new xors.new queue.new marks.new seen.new }
{
    let n = keys.len() as u32;
    let need = needs(Kind::Assigned, n, modulus);
    let words = need.table as usize;
    let each = need.vertices as usize;
    let bytes = need.seen as usize;
    let m = need.table as u32;
    let verdict = judge_part(values, modulus, &mut seen[..bytes]);
    let run = work_assigned(
        keys,
        values,
        modulus,
        verdict,
        m,
        &mut table[..words],
        &mut degrees[..each],
        &mut xors[..each],
        &mut queue[..each],
        &mut marks[..each],
    );
    let left = left_of(run);
    Ready {
        built: finish(Kind::Assigned, n, m, modulus, run),
        seed: left.seed,
        m,
        pairs: left.pairs,
        vertices: each,
        order: need.order as usize,
    }
}

// A compact build that has passed its early checks and has a key.
fn begin_compact(
    keys: &[u64],
    order: usize,
    table: &mut [u32],
    occupancy: &mut [u8],
    degrees: &mut [u8],
    xors: &mut [u32],
    queue: &mut [u32],
    marks: &mut [u8],
) -> Ready
    requires some { 1 ≤ length keys.now }
    requires accepted { compact_early (length keys.now) (lengths_with table.old degrees.old xors.old queue.old order marks.old occupancy.old []) ≡ 0 }
    ensures { ReadyCompact keys.now order table.old occupancy.old degrees.old xors.old queue.old marks.old result table.new occupancy.new degrees.new xors.new queue.new marks.new }
{
    let n = keys.len() as u32;
    let need = needs(Kind::Compact, n, n);
    let words = need.table as usize;
    let each = need.vertices as usize;
    let bytes = need.occupancy as usize;
    let m = need.table as u32;
    let run = work_compact(
        keys,
        m,
        &mut table[..words],
        &mut occupancy[..bytes],
        &mut degrees[..each],
        &mut xors[..each],
        &mut queue[..each],
        &mut marks[..each],
    );
    let left = left_of(run);
    Ready {
        built: finish(Kind::Compact, n, m, n, run),
        seed: left.seed,
        m,
        pairs: left.pairs,
        vertices: each,
        order: need.order as usize,
    }
}

// An assigned build up to its pairs.
pub(crate) fn ready_assigned(
    keys: &[u64],
    values: &[u32],
    modulus: u32,
    order: usize,
    table: &mut [u32],
    degrees: &mut [u8],
    xors: &mut [u32],
    queue: &mut [u32],
    marks: &mut [u8],
    seen: &mut [u8],
) -> Ready
    ensures { ReadyAssigned keys.now values.now modulus order table.old degrees.old xors.old queue.old marks.old seen.old result table.new degrees.new xors.new queue.new marks.new seen.new }
{
    let lent = Lengths {
        table: table.len(),
        degrees: degrees.len(),
        xors: xors.len(),
        queue: queue.len(),
        order,
        marks: marks.len(),
        occupancy: 0,
        seen: seen.len(),
    };
    if let Err(refusal) = early_assigned(keys.len(), values.len(), modulus, lent) {
        return untouched(Err(refusal));
    }
    if keys.len() == 0 {
        return untouched(finish(Kind::Assigned, 0, 0, modulus, Ok(NO_RUN)));
    }
    begin_assigned(
        keys, values, modulus, order, table, degrees, xors, queue, marks, seen,
    )
}

// A compact build up to its pairs.
pub(crate) fn ready_compact(
    keys: &[u64],
    order: usize,
    table: &mut [u32],
    occupancy: &mut [u8],
    degrees: &mut [u8],
    xors: &mut [u32],
    queue: &mut [u32],
    marks: &mut [u8],
) -> Ready
    ensures { ReadyCompact keys.now order table.old occupancy.old degrees.old xors.old queue.old marks.old result table.new occupancy.new degrees.new xors.new queue.new marks.new }
{
    let lent = Lengths {
        table: table.len(),
        degrees: degrees.len(),
        xors: xors.len(),
        queue: queue.len(),
        order,
        marks: marks.len(),
        occupancy: occupancy.len(),
        seen: 0,
    };
    if let Err(refusal) = early_compact(keys.len(), lent) {
        return untouched(Err(refusal));
    }
    if keys.len() == 0 {
        return untouched(finish(Kind::Compact, 0, 0, 0, Ok(NO_RUN)));
    }
    begin_compact(keys, order, table, occupancy, degrees, xors, queue, marks)
}

// The first entries of every scratch buffer end as zeros.
pub(crate) fn clear_scratch(
    vertices: usize,
    degrees: &mut [u8],
    xors: &mut [u32],
    queue: &mut [u32],
    marks: &mut [u8],
)
    requires { (vertices ≤ length degrees.old) × (vertices ≤ length xors.old) × (vertices ≤ length queue.old) × (vertices ≤ length marks.old) }
    ensures { Cleared vertices degrees.old xors.old queue.old marks.old degrees.new xors.new queue.new marks.new }
{
    degrees[..vertices].fill(0);
    xors[..vertices].fill(0);
    queue[..vertices].fill(0);
    marks[..vertices].fill(0);
}

// Every key gets its own value; the table is the lent one. 1, 2, 13, 14, 3, 4, 5.
pub fn build_assigned(
    keys: &[u64],
    values: &[u32],
    modulus: u32,
    table: &mut [u32],
    degrees: &mut [u8],
    xors: &mut [u32],
    queue: &mut [u32],
    order: &mut [Pair],
    marks: &mut [u8],
    seen: &mut [u8],
) -> Result<Index, Refusal>
    ensures { BuiltAssigned keys.now values.now modulus table.old degrees.old xors.old queue.old order.old marks.old seen.old (told_index result) table.new degrees.new xors.new queue.new order.new marks.new seen.new }
{
    let lent = order.len();
    let ready = ready_assigned(
        keys, values, modulus, lent, table, degrees, xors, queue, marks, seen,
    );
    note_order(xors, queue, order, ready.pairs);
    let graph = Graph {
        keys,
        seed: ready.seed,
        m: ready.m,
        kind: Kind::Assigned,
    };
    // a key comes to its own value
    let value = |p: Pair| values[p.edge as usize];
    assign_all(order, ready.pairs, graph, modulus, value, table, marks);
    clear_scratch(ready.vertices, degrees, xors, queue, marks);
    // of a cleared queue the same notes are zeros
    note_order(xors, queue, order, ready.order);
    ready.built
}

// Every key gets its own number below the count of the keys; the table and the occupancy are the lent ones. 13, 14, 5.
pub fn build_compact(
    keys: &[u64],
    table: &mut [u32],
    occupancy: &mut [u8],
    degrees: &mut [u8],
    xors: &mut [u32],
    queue: &mut [u32],
    order: &mut [Pair],
    marks: &mut [u8],
) -> Result<Index, Refusal>
    ensures { BuiltCompact keys.now table.old occupancy.old degrees.old xors.old queue.old order.old marks.old (told_index result) table.new occupancy.new degrees.new xors.new queue.new order.new marks.new }
{
    let lent = order.len();
    let ready = ready_compact(keys, lent, table, occupancy, degrees, xors, queue, marks);
    note_order(xors, queue, order, ready.pairs);
    let graph = Graph {
        keys,
        seed: ready.seed,
        m: ready.m,
        kind: Kind::Compact,
    };
    // a key comes to the part of its own vertex
    let part = |p: Pair| part_of(graph.m, p.vert);
    assign_all(order, ready.pairs, graph, 3, part, table, marks);
    occupy_all(order, ready.pairs, ready.m, occupancy);
    clear_scratch(ready.vertices, degrees, xors, queue, marks);
    note_order(xors, queue, order, ready.order);
    ready.built
}

// The assigned build with pairs of its own, for at most 1,000 keys. 14 for more.
pub fn build_assigned_small(
    keys: &[u64],
    values: &[u32],
    modulus: u32,
    table: &mut [u32],
    degrees: &mut [u8],
    xors: &mut [u32],
    queue: &mut [u32],
    marks: &mut [u8],
    seen: &mut [u8],
) -> Result<Index, Refusal>
    ensures { BuiltAssigned keys.now values.now modulus table.old degrees.old xors.old queue.old own_pairs marks.old seen.old (told_index result) table.new degrees.new xors.new queue.new own_pairs marks.new seen.new }
{
    let mut order = [Pair { edge: 0, vert: 0 }; 1000];
    build_assigned(
        keys, values, modulus, table, degrees, xors, queue, &mut order, marks, seen,
    )
}

// The compact build, likewise.
pub fn build_compact_small(
    keys: &[u64],
    table: &mut [u32],
    occupancy: &mut [u8],
    degrees: &mut [u8],
    xors: &mut [u32],
    queue: &mut [u32],
    marks: &mut [u8],
) -> Result<Index, Refusal>
    ensures { BuiltCompact keys.now table.old occupancy.old degrees.old xors.old queue.old own_pairs marks.old (told_index result) table.new occupancy.new degrees.new xors.new queue.new own_pairs marks.new }
{
    let mut order = [Pair { edge: 0, vert: 0 }; 1000];
    build_compact(
        keys, table, occupancy, degrees, xors, queue, &mut order, marks,
    )
}
