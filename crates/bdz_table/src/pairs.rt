// The peel order as a lent slice of pairs, and what is done along it: words are assigned, and occupancy bits set.
ghost use Rattle.std.specs.Prelude.{◌≡◌, ℕ, ◌<◌, length, get_or, slice_index};
ghost use Rattle.bdz_table.specs.Keys.{graph_at};
ghost use Rattle.bdz_table.specs.Order.{pair_of, no_pair};
ghost use Rattle.bdz_table.specs.Pairs.{noted, Notes, PairReady, PairWord, PairsReady, Follows, PairsAssigned, Occupies, PairsOccupied};
ghost use Rattle.bdz_table.specs.Peel.{Cut};

use super::assign::assign_one;
use super::graph::Graph;
use super::occ::occ_set;
use bdz_base::size::occ_packed_bytes;

// A removed key's number, with the vertex that it was removed by.
#[repr(C)]
#[derive(Clone, Copy)]
pub struct Pair {
    pub edge: u32,
    pub vert: u32,
}

// The i-th pair where the peeler left it: the vertex in the front of the queue, its key in its xor word.
fn pair_of(xor_e: &[u32], q: &[u32], i: usize) -> Pair
    requires { (i < length q.now) × (slice_index q.now i < length xor_e.now) }
    ensures { result ≡ pair_of (get_or xor_e.now (slice_index q.now i) 0) (slice_index q.now i) }
{
    let v = q[i];
    Pair {
        edge: xor_e[v as usize],
        vert: v,
    }
}

// Notes the first n pairs down.
pub(crate) fn note_order(xor_e: &[u32], q: &[u32], order: &mut [Pair], n: usize)
    requires { Notes xor_e.now q.now order.old n }
    ensures { order.new ≡ noted xor_e.now q.now n order.old }
{
    for i in (0..n).rev() {
        order[i] = pair_of(xor_e, q, i);
    }
}

// The word of a pair's vertex, by which its key comes to the value.
fn assign_pair(graph: Graph, p: Pair, value: u32, modulus: u32, g: &mut [u32], marks: &mut [u8])
    requires { PairReady (length graph.keys.now) graph.m modulus value p marks.old g.old }
    ensures { PairWord (graph_at graph.entry) graph.entry.m modulus value p marks.old g.old marks.new g.new }
{
    let words = graph.m as usize;
    assign_one(
        graph,
        p,
        value,
        modulus,
        &mut g[..words],
        &mut marks[..words],
    );
}

// Each key comes to its value: `val` is any numbering of the pairs that the closure's answers follow.
pub(crate) fn assign_all<F: Fn(Pair) -> u32>(
    order: &[Pair],
    n: usize,
    graph: Graph,
    modulus: u32,
    value: F,
    g: &mut [u32],
    marks: &mut [u8],
)
    requires callable { (i : ℕ) → i < n → F.pre value (get_or order.now i no_pair) }
    requires ready { PairsReady n (length graph.keys.now) graph.m modulus (F.post value) order.now marks.old g.old }
    ensures { (val : Cut → ℕ)
        → Follows n (F.post value) val order.now
        → PairsAssigned (graph_at graph.entry) n graph.entry.m modulus val order.now marks.old g.old marks.new g.new }
{
    for &p in order[..n].iter().rev() {
        assign_pair(graph, p, value(p), modulus, g, marks);
    }
}

// The occupancy bit of each pair's vertex.
pub(crate) fn occupy_all(order: &[Pair], n: usize, m: u32, occ: &mut [u8])
    requires { Occupies n m order.now occ.old }
    ensures { PairsOccupied n m order.now occ.old occ.new }
{
    let bytes = occ_packed_bytes(m) as usize;
    for &p in order[..n].iter().rev() {
        occ_set(&mut occ[..bytes], p.vert);
    }
}
