// A feed is asked.
ghost use Rattle.std.specs.Prelude.{◌≡◌, ◌+◌, ◌*◌, ◌/◌, ◌^◌, ◌<◌, length};
ghost use Rattle.bdz_image.specs.Ask.{told_words, words_of};

use super::bits::low;
use bdz_base::refusal::Refusal;

// The words of a key's three vertices.
#[derive(Clone, Copy)]
pub(crate) struct KeyWords {
    pub(crate) a: u32,
    pub(crate) b: u32,
    pub(crate) c: u32,
}

fn missing(x: u64) -> u64
    ensures { (result ≡ x / 2 ^ 32) × (result < 2 ^ 32) }
{
    x >> 32
}

// The three words of the i-th key, or 18 while a page has not come.
pub(crate) fn ask(slots: &[u64], i: usize) -> Result<KeyWords, Refusal>
    requires { 3 * i + 2 < length slots.now }
    ensures { told_words result ≡ words_of slots.now i }
{
    let a = slots[3 * i];
    let b = slots[3 * i + 1];
    let c = slots[3 * i + 2];
    if missing(a) + missing(b) + missing(c) != 0 {
        return Err(Refusal::Waiting);
    }
    Ok(KeyWords {
        a: low(a),
        b: low(b),
        c: low(c),
    })
}
