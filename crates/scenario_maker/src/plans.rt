//! What a manager of a made scenario does.

/// The transaction of a manager: an amount goes from the account of the payer, at the first resource,
/// to the account of the payee, at the second one. Resources are counted from 1, and so are accounts.
#[derive(Drop)]
pub struct Plan {
    pub first: u32,
    pub second: u32,
    pub payer: u32,
    pub payee: u32,
    pub amount: u32,
    /// A third call reserves one of the payee's stock, at the second resource.
    pub reserves: bool,
    pub rolls_back: bool,
}
