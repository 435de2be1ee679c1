// The memory that a caller lends to an evening.
#[derive(Drop)]
pub struct Books<'a> {
    // the entries, kind by kind: member m's in kind k is at k × members + m
    pub entries: &'a mut [u32],
    // the number of each member's last taken message
    pub numbers: &'a mut [u32],
    // what each member bids in all kinds together, in half cents
    pub committed: &'a mut [u64],
    // each member's account, in half cents
    pub accounts: &'a mut [u64],
    // each member's berths, member by member: those of kind k are at m × kinds + k
    pub berths: &'a mut [u8],
}
