// The peeler: degrees and exclusive ors of key numbers, and a queue of the vertices that carry one key.
ghost use Rattle.std.specs.Prelude.{◌+◌, ◌^◌, ◌<◌, ◌≤◌, length};
ghost use Rattle.bdz_table.specs.Keys.{graph_at};
ghost use Rattle.bdz_table.specs.Steps.{Places, AddedOr, Leaves, Left, Clear, CountedOr, Queued, Turnable, Turned, Room, PeelAnswer};

use super::graph::Graph;

// Puts key e on the vertices us. False where one of them has 255 keys already.
fn add_key(us: &[u32], e: u32, deg: &mut [u8], xor_e: &mut [u32]) -> bool
    requires { Places us.now deg.old xor_e.old }
    ensures { AddedOr result us.now e deg.old xor_e.old deg.new xor_e.new }
{
    for &w in us {
        let u = w as usize;
        let d = deg[u];
        if d == 255 {
            return false;
        }
        deg[u] = d + 1;
        xor_e[u] ^= e;
    }
    true
}

// Puts every key on its vertices. False where a vertex has over 255 keys.
fn count_keys(graph: Graph, deg: &mut [u8], xor_e: &mut [u32]) -> bool
    requires { Clear (length graph.keys.now) graph.m deg.old xor_e.old }
    ensures { CountedOr result (graph_at graph.entry) (length graph.entry.keys.now) deg.new xor_e.new }
{
    for e in 0..graph.keys.len() as u32 {
        let us = graph.vertices(e);
        if !add_key(&us, e, deg, xor_e) {
            return false;
        }
    }
    true
}

// Queues the vertices that carry one key, in rising order.
fn fill_queue(deg: &[u8], q: &mut [u32]) -> usize
    requires { (length deg.now ≤ length q.old) × (length deg.now ≤ 2 ^ 31) }
    ensures { Queued deg.now q.new result }
{
    let mut n: usize = 0;
    for (v, &d) in deg.iter().enumerate() {
        if d == 1 {
            q[n] = v as u32;
            n += 1;
        }
    }
    n
}

// Takes key e off the vertices us. Those that come to one key go into the queue, which holds qn entries.
fn leave(us: &[u32], e: u32, deg: &mut [u8], xor_e: &mut [u32], q: &mut [u32], qn: usize) -> usize
    requires { Leaves us.now deg.old xor_e.old q.old qn }
    ensures { Left us.now e deg.old xor_e.old q.old qn deg.new xor_e.new q.new result }
{
    let mut n = qn;
    for &w in us {
        let u = w as usize;
        let d = deg[u] - 1;
        deg[u] = d;
        xor_e[u] ^= e;
        if d == 1 {
            q[n] = w;
            n += 1;
        }
    }
    n
}

// The turns of the queue. Answers how many keys were removed, and leaves their order where it was found: the vertices
// in the front of the queue, behind the entries still to be read, and each key's number in the xor word of its vertex.
fn peel_turns(
    graph: Graph,
    deg: &mut [u8],
    xor_e: &mut [u32],
    q: &mut [u32],
    filled: usize,
) -> usize
    requires { Turnable (graph_at graph) (length graph.keys.now) graph.m deg.old xor_e.old q.old filled }
    ensures { Turned (graph_at graph.entry) (length graph.entry.keys.now) graph.entry.m xor_e.new q.new result }
{
    let mut qn = filled;
    let mut qi: usize = 0;
    let mut c: usize = 0;
    // a `while`, as the queue grows while it is walked
    while qi < qn {
        let w = q[qi];
        let v = w as usize;
        if deg[v] == 1 {
            let e = xor_e[v];
            let us = graph.vertices(e);
            qn = leave(&us, e, deg, xor_e, q, qn);
            q[c] = w;
            xor_e[v] = e;
            c += 1;
        }
        qi += 1;
    }
    c
}

// Peels the graph of the keys at one seed. True exactly where no vertex has over 255 keys and there is an order.
pub(crate) fn peel_order(graph: Graph, deg: &mut [u8], xor_e: &mut [u32], q: &mut [u32]) -> bool
    requires { Room (length graph.keys.now) graph.m deg.old xor_e.old q.old }
    ensures { PeelAnswer result (graph_at graph.entry) (length graph.entry.keys.now) graph.entry.m xor_e.new q.new }
{
    if !count_keys(graph, deg, xor_e) {
        return false;
    }
    let qn = fill_queue(deg, q);
    let c = peel_turns(graph, deg, xor_e, q, qn);
    c == graph.keys.len()
}
