// What a price says.

/// A price of an issue.
#[derive(Clone, Copy, PartialEq, Eq, Debug)]
pub struct Quote {
    pub code: u32,
    pub price: u32,
}
