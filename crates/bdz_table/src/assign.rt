// One word of a table, by which a key comes to its value.
ghost use Rattle.std.specs.Prelude.{◌≡◌, ◌<◌, ◌≤◌, length};
ghost use Rattle.bdz_table.specs.Assign.{sum_at, part_of};
ghost use Rattle.bdz_table.specs.Keys.{graph_at};
ghost use Rattle.bdz_table.specs.Steps.{Marked, Reach, Word};

use super::graph::Graph;
use super::pairs::Pair;

// The sum of the marked words at the vertices us.
fn sum_marked(us: &[u32], marks: &[u8], g: &[u32], modulus: u32) -> u32
    requires marked { Marked modulus marks.now g.now }
    requires reach { Reach us.now g.now }
    ensures { result ≡ sum_at g.now us.now }
{
    let mut s: u32 = 0;
    for &w in us {
        let u = w as usize;
        if marks[u] != 0 {
            s += g[u];
        }
    }
    s
}

// The word of the pair's vertex, by which its key comes to the value.
pub(crate) fn assign_one(
    graph: Graph,
    p: Pair,
    value: u32,
    modulus: u32,
    g: &mut [u32],
    marks: &mut [u8],
)
    requires marked { Marked modulus marks.old g.old }
    requires sizes { (3 ≤ graph.m) × (p.vert < graph.m) × (value < modulus) × (length g.old ≡ graph.m) }
    requires key_below { p.edge < length graph.keys.now }
    ensures { Word modulus value p.vert (graph_at graph.entry p.edge) marks.old g.old marks.new g.new }
{
    let us = graph.vertices(p.edge);
    let s = sum_marked(&us, marks, g, modulus);
    let w = (value + modulus - s % modulus) % modulus;
    let u = p.vert as usize;
    g[u] = w;
    marks[u] = 1;
}

// Which third of m the vertex lies in.
pub(crate) fn part_of(m: u32, v: u32) -> u32
    ensures { (result ≡ part_of m v) × (result < 3) }
{
    let part = m / 3;
    if v < part {
        return 0;
    }
    if v < 2 * part {
        return 1;
    }
    2
}
