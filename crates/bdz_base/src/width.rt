// The width of a table: how many bits each of its words has.
ghost use Rattle.std.specs.Prelude.{◌≡◌, ◌≤◌, ◌<◌, ◌==◌, ◌||◌, nat_lt, IfOk};
ghost use Rattle.bdz_base.specs.Refusal.{number_of, refuse};

use super::refusal::Refusal;

// How many bits a word of a table has: 1 to 32.
#[derive(Clone, Copy)]
pub struct Width {
    bits: u32,
    ghost some: { 0 < bits },
    ghost within: { bits ≤ 32 },
}

impl Width {
    // 10 for a width of 0 or over 32.
    pub fn new(bits: u32) -> Result<Width, Refusal>
        ensures number_is { number_of result ≡ refuse 10 (bits == 0 || nat_lt 32 bits) 0 }
        ensures bits_are { IfOk result (λ width. width.bits ≡ bits) }
    {
        if bits == 0 || 32 < bits {
            return Err(Refusal::GBits);
        }
        Ok(Width { bits })
    }

    pub fn bits(self) -> u32
        ensures { (result ≡ self.bits) × (0 < result) × (result ≤ 32) }
    {
        self.bits
    }
}
