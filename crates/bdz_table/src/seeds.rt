// The search for a seed: one splitmix64 step per try, at most 256.
ghost use Rattle.std.specs.Prelude.{length};
ghost use Rattle.bdz_table.specs.Keys.{graph_at};
ghost use Rattle.bdz_table.specs.Steps.{PeelAnswer, Lent, SeedAnswer};

use super::graph::Graph;
use super::peel::peel_order;
use bdz_base::mix::splitmix64;
use bdz_base::verts::Kind;

// One seed, on buffers of which nothing is known.
fn try_seed(graph: Graph, deg: &mut [u8], xor_e: &mut [u32], q: &mut [u32]) -> bool
    requires { Lent (length graph.keys.now) graph.m deg.old xor_e.old q.old }
    ensures { PeelAnswer result (graph_at graph.entry) (length graph.entry.keys.now) graph.entry.m xor_e.new q.new }
{
    deg.fill(0);
    xor_e.fill(0);
    peel_order(graph, deg, xor_e, q)
}

// The first seed of 256 that works, if one does.
pub(crate) fn find_seed(
    keys: &[u64],
    m: u32,
    kind: Kind,
    deg: &mut [u8],
    xor_e: &mut [u32],
    q: &mut [u32],
) -> Option<u64>
    requires { Lent (length keys.now) m deg.old xor_e.old q.old }
    ensures { SeedAnswer kind keys.now m xor_e.new q.new result }
{
    let mut state: u64 = 0x9e37_79b9_7f4a_7c15;
    for _tries in 0..256u32 {
        let step = splitmix64(state);
        let graph = Graph {
            keys,
            seed: step.seed,
            m,
            kind,
        };
        if try_seed(graph, deg, xor_e, q) {
            return Some(step.seed);
        }
        state = step.state;
    }
    None
}
