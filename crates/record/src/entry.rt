// What one record of a day file says.
use crate::contract::Contract;
use crate::quote::Quote;

/// A record, by its letter.
// It is read and written by methods, as std's numbers are from and to bytes: each keeps two promises apart by name.
#[derive(Clone, Copy, PartialEq, Eq, Debug)]
pub enum Record {
    /// P: a price of an issue.
    Price(Quote),
    /// L: lists an issue.
    Listing { code: u32 },
    /// O: opens a day.
    Opening { date: u32 },
    /// B: a contract bought.
    Bought(Contract),
    /// S: a contract sold.
    Sold(Contract),
    /// K: strikes the day and serves its notice.
    Strike,
}
