// Why a call refuses: document 01's refusals, each under the name of its text there.
ghost use Rattle.std.specs.Prelude.{◌≡◌};
ghost use Rattle.bdz_base.specs.Refusal.{number};
ghost use Rattle.bdz_base.specs.Text.{text_of};

// In the order of their numbers, from 1 on.
#[derive(Clone, Copy, Debug, PartialEq, Eq)]
pub enum Refusal {
    AssignedLen = 1,
    AssignedModulus,
    AssignedValue,
    AssignedDuplicate,
    GraphDidNotPeel,
    ShortPread,
    GLength,
    BadMagic,
    BadVersion,
    GBits,
    ZeroModulus,
    OccTruncated,
    TooLarge,
    NoRoom,
    PageNotListed,
    PageGiven,
    PageLength,
    Waiting,
    BadList,
    NoSuchKey,
}

// The number of a refusal.
impl From<Refusal> for u32 {
    ghost from_gives = { λ refusal no. no ≡ number refusal };

    fn from(refusal: Refusal) -> u32 {
        refusal as u32
    }
}

// The text of a refusal number; none for 0 and for what is no refusal.
pub fn refusal_text(no: u32) -> &'static str
    ensures { result.now ≡ text_of «no» }
{
    match no {
        1 => "assigned len",
        2 => "assigned modulus",
        3 => "assigned value",
        4 => "assigned duplicate",
        5 => "graph did not peel",
        6 => "short pread",
        7 => "g length",
        8 => "bad magic",
        9 => "bad version",
        10 => "g_bits",
        11 => "zero modulus",
        12 => "occ truncated",
        13 => "too large",
        14 => "no room",
        15 => "page not listed",
        16 => "page given",
        17 => "page length",
        18 => "waiting",
        19 => "bad list",
        20 => "no such key",
        _ => "",
    }
}
