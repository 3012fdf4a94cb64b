// What an index is beside its lent slices, what is told of an answer, and what a build has to be lent.
ghost use Rattle.std.specs.Prelude.{◌≡◌};
ghost use Rattle.bdz_table.specs.Build.{width_for};
ghost use Rattle.bdz_table.specs.Told.{refused_build};

use bdz_base::size::g_bits_for_modulus;
use bdz_base::verts::Kind;

#[derive(Clone, Copy)]
pub struct Index {
    pub kind: Kind,
    pub n: u32,
    pub m: u32,
    pub seed: u64,
    pub modulus: u32,
    pub width: u32,
}

// What is told of a build or an opening: a refusal number, or 0 and the index.
#[derive(Clone, Copy)]
pub struct Built {
    pub no: u32,
    pub index: Index,
}

// What a build needs: words of the table; words or bytes a vertex of xors, queue, degrees and marks; pairs of the order;
// bytes of the occupancy and of the seen values.
#[derive(Clone, Copy)]
pub struct Needs {
    pub table: u64,
    pub vertices: u64,
    pub order: u64,
    pub occupancy: u64,
    pub seen: u64,
}

// The width of the words of a table: from the modulus, and 2 in a compact index.
pub fn width_for(kind: Kind, modulus: u32) -> u32
    ensures { result ≡ width_for kind modulus }
{
    match kind {
        Kind::Assigned => g_bits_for_modulus(modulus),
        Kind::Compact => 2,
    }
}

// A refused call answers its number, with every other field zero.
pub fn refused(no: u32) -> Built
    ensures { result ≡ refused_build no }
{
    Built {
        no,
        index: Index {
            kind: Kind::Assigned,
            n: 0,
            m: 0,
            seed: 0,
            modulus: 0,
            width: 0,
        },
    }
}
