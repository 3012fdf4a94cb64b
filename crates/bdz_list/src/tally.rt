// How many answers are as they should be.
ghost use Rattle.std.specs.Prelude.{◌≡◌, [], ◌/◌, ◌<◌, min, eqb, length, replicate};
ghost use Rattle.bdz_base.specs.Pack.{bits_at};
ghost use Rattle.bdz_base.specs.Sizes.{occupancy_bytes};
ghost use Rattle.bdz_table.specs.Occupancy.{with_bit};
ghost use Rattle.bdz_list.specs.Steps.{Counted};
ghost use Rattle.bdz_table.specs.Told.{told_answer};
ghost use Rattle.bdz_list.specs.Tally.{same_count, holders, FirstHolders};

use bdz_base::refusal::Refusal;
use bdz_base::size::occ_packed_bytes;

// How many answers are the values that they should be, as far as both go.
pub fn same_values(values: &[u32], answers: &[u32]) -> u64
    ensures { result ≡ same_count values.now answers.now }
{
    let n = values.len().min(answers.len());
    let mut same: u64 = 0;
    for i in 0..n {
        same += u64::from(answers[i] == values[i]);
    }
    same
}

// This and `has_bit` stand in bdz_table too, for its own use: a public function asks nothing of its callers, and testing
// the place would cost at each value of a build.
//
// The bit of x is set.
fn set_bit(bytes: &mut [u8], x: u32)
    requires { x / 8 < length bytes.old }
    ensures { bytes.new ≡ with_bit x bytes.old }
{
    let at = (x / 8) as usize;
    bytes[at] = bytes[at] | (1u8 << (x % 8));
}

// Whether it is.
fn has_bit(bytes: &[u8], x: u32) -> bool
    requires { x / 8 < length bytes.now }
    ensures { result ≡ eqb (bits_at 1 bytes.now x) 1 }
{
    let at = (x / 8) as usize;
    (bytes[at] >> (x % 8)) & 1 == 1
}

// 1 for an answer below n that did not come before. Its bit remembers it.
fn hold(n: u32, x: u32, seen: &mut [u8]) -> u64
    requires { length seen.old ≡ occupancy_bytes n }
    ensures { Counted n x seen.old result seen.new }
{
    if n <= x {
        return 0;
    }
    if has_bit(seen, x) {
        return 0;
    }
    set_bit(seen, x);
    1
}

// The answers one by one, from bits that are all zero.
fn hold_all(n: u32, answers: &[u32], seen: &mut [u8]) -> u64
    requires { seen.old ≡ replicate (occupancy_bytes n) 0 }
    ensures { result ≡ holders n [] answers.now }
{
    let mut count: u64 = 0;
    for &answer in answers {
        count += hold(n, answer, seen);
    }
    count
}

// The bits are zero before and after.
fn hold_part(n: u32, answers: &[u32], seen: &mut [u8]) -> u64
    requires { length seen.old ≡ occupancy_bytes n }
    ensures { (result ≡ holders n [] answers.now) × (seen.new ≡ replicate (occupancy_bytes n) 0) }
{
    seen.fill(0);
    let count = hold_all(n, answers, seen);
    seen.fill(0);
    count
}

// How many answers below n are the first of their kind, with a bit of `seen` for each number below n. 14.
pub fn first_holders(n: u32, answers: &[u32], seen: &mut [u8]) -> Result<u64, Refusal>
    ensures { FirstHolders n answers.now seen.old (told_answer result) seen.new }
{
    let need = occ_packed_bytes(n) as usize;
    if seen.len() < need {
        return Err(Refusal::NoRoom);
    }
    Ok(hold_part(n, answers, &mut seen[..need]))
}
