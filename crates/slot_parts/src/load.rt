// What a slot keeps of its unit beside the octets: the pieces that remain, the limit of its length, and its length so far.
// Stays: no bounds in the type, since lent records may hold any load.
#[derive(Clone, Copy)]
pub struct Load {
    pub remaining: u8,
    pub limit: u16,
    pub len: u16,
}
