// The words that keys wait for.
ghost use Rattle.std.specs.Prelude.{◌≡◌, ◌+◌, ◌*◌, ◌^◌, ◌≤◌, ◌<◌, length};
ghost use Rattle.bdz_base.specs.Buffer.{tab};
ghost use Rattle.bdz_image.specs.Entry.{entry_at};

use bdz_base::verts::{Kind, hash_verts};

// A vertex, with the number of its slot below it.
fn entry(v: u32, s: usize) -> u64
    requires { s < 2 ^ 32 }
    ensures { result ≡ v * 2 ^ 32 + s }
{
    (v as u64) * 0x1_0000_0000 + s as u64
}

// The entries of the keys, three a key.
pub(crate) fn entries(kind: Kind, keys: &[u64], seed: u64, m: u32, order: &mut [u64])
    requires { (0 < m) × (length order.old ≡ 3 * length keys.now) × (length order.old ≤ 2 ^ 32) }
    ensures { order.new ≡ tab (entry_at kind keys.now seed m) (length order.old) }
{
    for (i, &key) in keys.iter().enumerate() {
        let v = hash_verts(key, seed, m, kind);
        order[3 * i] = entry(v.a, 3 * i);
        order[3 * i + 1] = entry(v.b, 3 * i + 1);
        order[3 * i + 2] = entry(v.c, 3 * i + 2);
    }
}
