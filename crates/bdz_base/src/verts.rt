// The three vertices of a key.
ghost use Rattle.std.specs.Prelude.{◌≡◌, ◌<◌};
ghost use Rattle.bdz_base.specs.Verts.{hash_of, moved_off, hash3_of, hash3_partite_of, verts_of};

use super::mix::mix64;
use super::words::{mul_high, rotate_left};

// The two kinds of index.
#[derive(Clone, Copy)]
pub enum Kind {
    Assigned,
    Compact,
}

#[derive(Clone, Copy)]
pub struct Verts {
    pub a: u32,
    pub b: u32,
    pub c: u32,
}

// The mixed word of a key under a seed.
fn mixed(key: u64, seed: u64) -> u64
    ensures { result ≡ hash_of key seed }
{
    mix64(key.wrapping_add(seed))
}

// x, moved on by one modulo m if it is a or b.
fn moved_off(x: u32, a: u32, b: u32, m: u32) -> u32
    requires { x < m }
    ensures { (result ≡ moved_off m a b x) × (result < m) }
{
    if x == a {
        return (x + 1) % m;
    }
    if x == b {
        return (x + 1) % m;
    }
    x
}

// The same once more, where that moved it.
fn moved_twice(x: u32, a: u32, b: u32, m: u32) -> u32
    requires { x < m }
    ensures { result ≡ moved_off m a b (moved_off m a b x) }
{
    let y = moved_off(x, a, b, m);
    if y == x {
        return y;
    }
    moved_off(y, a, b, m)
}

// The assigned vertices: three of m, which differ where m is 3 or more.
pub fn hash3(key: u64, seed: u64, m: u32) -> Verts
    ensures { result ≡ hash3_of (hash_of key seed) m }
{
    if m == 0 {
        return Verts { a: 0, b: 0, c: 0 };
    }
    let h = mixed(key, seed);
    let a = mul_high(h, m);
    let b0 = mul_high(rotate_left(h, 21), m);
    let c0 = mul_high(rotate_left(h, 42), m);
    let b = moved_off(b0, a, a, m);
    let c = moved_twice(c0, a, b, m);
    Verts { a, b, c }
}

// The compact vertices: one in each third of m.
pub fn hash3_partite(key: u64, seed: u64, m: u32) -> Verts
    ensures { result ≡ hash3_partite_of (hash_of key seed) m }
{
    let p = m / 3;
    let h = mixed(key, seed);
    let a = mul_high(h, p);
    let b = mul_high(rotate_left(h, 21), p);
    let c = mul_high(rotate_left(h, 42), p);
    Verts {
        a,
        b: p + b,
        c: 2 * p + c,
    }
}

// The vertices of a key, by the kind of its index.
pub fn hash_verts(key: u64, seed: u64, m: u32, kind: Kind) -> Verts
    ensures { result ≡ verts_of kind key seed m }
{
    match kind {
        Kind::Assigned => hash3(key, seed, m),
        Kind::Compact => hash3_partite(key, seed, m),
    }
}
