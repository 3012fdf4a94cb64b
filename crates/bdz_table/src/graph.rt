// The graph of the keys at a seed.
ghost use Rattle.std.specs.Prelude.{◌≡◌, ◌<◌, length};
ghost use Rattle.bdz_table.specs.Keys.{graph_at};

use bdz_base::verts::{Kind, hash_verts};

// The keys, each an edge of three vertices of m.
#[derive(Clone, Copy)]
pub(crate) struct Graph<'a> {
    pub(crate) keys: &'a [u64],
    pub(crate) seed: u64,
    pub(crate) m: u32,
    pub(crate) kind: Kind,
}

impl<'a> Graph<'a> {
    // The vertices of key number e, as a list to walk along.
    pub(crate) fn vertices(self, e: u32) -> [u32; 3]
        requires { e < length self.keys.now }
        ensures { result ≡ graph_at self.entry e }
    {
        let v = hash_verts(self.keys[e as usize], self.seed, self.m, self.kind);
        [v.a, v.b, v.c]
    }
}
