// A rank view: it refers to a lent occupancy and its lent super counts.
ghost use Rattle.std.specs.Prelude.{◌≡◌};
ghost use Rattle.bdz_table.specs.Rank.{ranked_of};
ghost use Rattle.bdz_table.specs.Told.{told_answer};

use super::rank::rank_at;
use bdz_base::refusal::Refusal;

#[derive(Clone, Copy)]
pub struct RankView<'a, 'b> {
    pub m: u32,
    pub occ: &'a [u8],
    pub supers: &'b [u32],
}

pub fn new<'a, 'b>(occ: &'a [u8], supers: &'b [u32], m: u32) -> RankView<'a, 'b>
    ensures { (result.m ≡ m) × (result.occ ≡ occ.entry) × (result.supers ≡ supers.entry) }
{
    RankView { m, occ, supers }
}

impl<'a, 'b> RankView<'a, 'b> {
    // The rank of v. 12, 14.
    pub fn rank(self, v: u32) -> Result<u32, Refusal>
        ensures { told_answer result ≡ ranked_of self.entry.m self.entry.occ.now self.entry.supers.now v }
    {
        rank_at(self.occ, self.supers, self.m, v)
    }
}

// The rank of v, through a view of what is lent. 12, 14.
pub fn rank1(occ: &[u8], supers: &[u32], m: u32, v: u32) -> Result<u32, Refusal>
    ensures { told_answer result ≡ ranked_of m occ.now supers.now v }
{
    new(occ, supers, m).rank(v)
}
