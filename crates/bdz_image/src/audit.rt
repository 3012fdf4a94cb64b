// The audit of an opened BDZ3: are there as many ones in its occupancy as keys?
ghost use Rattle.std.specs.Prelude.{◌≡◌};
ghost use Rattle.bdz_image.specs.Audit.{told_audit, audit_of};

use bdz_base::refusal::Refusal;
use bdz_base::size::occ_packed_bytes;
use bdz_table::index::Index;
use bdz_table::rank::popcount_bits;

// What an audit finds: the ones in the occupancy, and whether there are n of them.
#[derive(Clone, Copy)]
pub struct Finding {
    pub ones: u64,
    pub full: bool,
}

// The ones in the occupancy bytes. 12.
pub fn audit(index: Index, occ: &[u8]) -> Result<Finding, Refusal>
    ensures { told_audit result ≡ audit_of index occ.now }
{
    let need = occ_packed_bytes(index.m);
    if (occ.len() as u64) < need {
        return Err(Refusal::OccTruncated);
    }
    // in two halves, neither of which has 2^32 ones
    let middle = need * 4;
    let low = popcount_bits(occ, 0, middle) as u64;
    let high = popcount_bits(occ, middle, need * 8) as u64;
    let ones = low + high;
    Ok(Finding {
        ones,
        full: ones == index.n as u64,
    })
}
