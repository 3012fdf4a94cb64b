// The values of an assigned build, judged one by one with a bit for each value that came.
ghost use Rattle.std.specs.Prelude.{◌≡◌, [], replicate};
ghost use Rattle.bdz_base.specs.Refusal.{number_of};
ghost use Rattle.bdz_base.specs.Sizes.{occupancy_bytes};
ghost use Rattle.bdz_table.specs.Values.{values_no};

use super::occ::{occ_has, occ_set};
use bdz_base::refusal::Refusal;

// 3 for a value that is not below the modulus, 4 for one that came before.
pub(crate) fn judge_values(values: &[u32], modulus: u32, seen: &mut [u8]) -> Result<(), Refusal>
    requires { seen.old ≡ replicate (occupancy_bytes modulus) 0 }
    ensures { number_of result ≡ values_no modulus [] values.now }
{
    for &x in values {
        if modulus <= x {
            return Err(Refusal::AssignedValue);
        }
        if occ_has(seen, x) {
            return Err(Refusal::AssignedDuplicate);
        }
        occ_set(seen, x);
    }
    Ok(())
}
