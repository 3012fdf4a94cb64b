// The two mixing functions.
ghost use Rattle.std.specs.Prelude.{◌≡◌};
ghost use Rattle.bdz_base.specs.Mix.{mix64_of, step_of};

use super::words::wrapping_mul64;

// What one splitmix64 step gives: the state after it, and a seed.
#[derive(Clone, Copy)]
pub struct Step {
    pub state: u64,
    pub seed: u64,
}

// One step of the public splitmix64 generator.
pub fn splitmix64(state: u64) -> Step
    ensures { result ≡ step_of state }
{
    let next = state.wrapping_add(0x9e37_79b9_7f4a_7c15);
    let z1 = wrapping_mul64(next ^ (next >> 30), 0xbf58_476d_1ce4_e5b9);
    let z2 = wrapping_mul64(z1 ^ (z1 >> 27), 0x94d0_49bb_1331_11eb);
    Step {
        state: next,
        seed: z2 ^ (z2 >> 31),
    }
}

// MurmurHash3's 64-bit finalizer.
pub fn mix64(k: u64) -> u64
    ensures { result ≡ mix64_of k }
{
    let k1 = k ^ (k >> 33);
    let k2 = wrapping_mul64(k1, 0xff51_afd7_ed55_8ccd);
    let k3 = k2 ^ (k2 >> 33);
    let k4 = wrapping_mul64(k3, 0xc4ce_b9fe_1a85_ec53);
    k4 ^ (k4 >> 33)
}
