// What comes from the harness: kinds as numbers, keys and values as bytes that are read into words.
ghost use Rattle.std.specs.Prelude.{◌≡◌, ◌/◌, ◌≤◌, ltb, length};
ghost use Rattle.bdz_base.specs.Buffer.{tab, over};
ghost use Rattle.bdz_base.specs.Refusal.{number_of, refuse};
ghost use Rattle.bdz_oracle.specs.Keys.{kind_of, key_at};
ghost use Rattle.bdz_oracle.specs.Building.{value_at};

use bdz_base::pack::extract_g_window;
use bdz_base::refusal::Refusal;
use bdz_base::verts::Kind;
use bdz_base::words::le64;

// 0 is the assigned kind.
pub(crate) fn kind_of(compact: u32) -> Kind
    ensures { result ≡ kind_of compact }
{
    if compact == 0 {
        return Kind::Assigned;
    }
    Kind::Compact
}

// 14 where so many words have no room, else what is judged next.
pub(crate) fn room_no(room: usize, words: usize, next: Result<(), Refusal>) -> Result<(), Refusal>
    ensures { number_of result ≡ refuse 14 (ltb room words) (number_of next) }
{
    if room < words {
        return Err(Refusal::NoRoom);
    }
    next
}

// The number of an answer: 0 means accepted.
pub(crate) fn number_of<T: Copy>(answer: Result<T, Refusal>) -> u32
    ensures { result ≡ number_of answer }
{
    match answer {
        Ok(_) => 0,
        Err(refusal) => u32::from(refusal),
    }
}

// One word a key.
pub(crate) fn read_keys(keys: &[u8], n: usize, out: &mut [u64])
    requires { (n ≡ length keys.now / 8) × (n ≤ length out.old) }
    ensures { out.new ≡ over (tab (key_at keys.now) n) out.old }
{
    for i in 0..n {
        let at = i * 8;
        let end = at + 8;
        out[i] = le64(&keys[at..end], 0);
    }
}

// One word a value.
pub(crate) fn read_values(values: &[u8], n: usize, out: &mut [u32])
    requires { (n ≡ length values.now / 4) × (n ≤ length out.old) }
    ensures { out.new ≡ over (tab (value_at values.now) n) out.old }
{
    for i in 0..n {
        let at = i * 4;
        let end = at + 4;
        out[i] = extract_g_window(&values[at..end], 0, 32);
    }
}
