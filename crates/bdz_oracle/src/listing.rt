// Key lists, exported.
ghost use Rattle.std.specs.Prelude.{◌≡◌};
ghost use Rattle.bdz_oracle.specs.Listing.{kind_number, ToldList};

use super::reading::number_of;
use bdz_base::refusal::Refusal;
use bdz_base::verts::Kind;
use bdz_list::list::{KeyList, read_list};

// "with every other field zero"
const NO_LIST: KeyList = KeyList {
    kind: Kind::Assigned,
    modulus: 0,
    count: 0,
};

// The assigned kind is 0.
fn kind_number(kind: Kind) -> u64
    ensures { result ≡ kind_number kind }
{
    match kind {
        Kind::Assigned => 0,
        Kind::Compact => 1,
    }
}

// Reads a key list; told are its kind, its modulus and how many keys it has. 14 where they have no room, and then nothing is touched.
#[unsafe(no_mangle)]
pub extern "C" fn bdz_read_list(
    bytes: &[u8],
    keys: &mut [u64],
    values: &mut [u32],
    told: &mut [u64],
) -> u32
    ensures { ToldList bytes.now keys.old values.old told.old result keys.new values.new told.new }
{
    if told.len() < 3 {
        return u32::from(Refusal::NoRoom);
    }
    let read = read_list(bytes, keys, values);
    let list = read.unwrap_or(NO_LIST);
    told[0] = kind_number(list.kind);
    told[1] = list.modulus as u64;
    told[2] = list.count as u64;
    number_of(read)
}
