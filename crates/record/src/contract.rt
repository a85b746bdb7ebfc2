// What a contract says, bought or sold.

/// What is bought or sold of an issue, for how much, and when it settles.
#[derive(Clone, Copy, PartialEq, Eq, Debug)]
pub struct Contract {
    pub code: u32,
    pub settlement: u32,
    pub quantity: u32,
    pub money: u64,
}
