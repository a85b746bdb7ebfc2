// A row takes one price more.
ghost use Rattle.market.specs.Limits.{price_fault};
ghost use Rattle.market.specs.Rows.{newest, latest};
ghost use Rattle.market.specs.View.{row_of, Rolled};
ghost use Rattle.std.specs.Prelude.{◌≡◌, ◌≤◌, [], ◌∷◌, ◌++◌, Some, vec_len, vec_capacity};
ghost use Rattle.std.specs.Result.{result_err};

use crate::fault::PriceFault;
use crate::limits::check_price;
use crate::making::{MOST_PRICES, ratio_between};
use crate::row::Row;

/// Adds an item behind the others and keeps the latest, at most so many.
fn slide<T: Drop>(items: &mut Vec<T>, item: T, most: usize)
    requires room { (most ≤ vec_capacity items.old) × (1 ≤ most) }
    requires few { vec_len items.old ≤ most }
    ensures items { items.new.items ≡ latest most (items.old.items ++ item ∷ []) }
    ensures capacity { vec_capacity items.new ≡ vec_capacity items.old }
{
    if items.len() == most {
        items.remove(0);
    }
    items.push_reserved(item);
}

impl Row {
    /// The newest price.
    pub fn newest(&self) -> u32
        ensures { result ≡ newest (row_of self.now).prices }
    {
        *self.prices.last().unwrap()
    }

    /// Tests a price that is to follow the newest: it may lie outside its limits, or be above twice the newest.
    pub fn test(&self, price: u32) -> Result<(), PriceFault>
        ensures { result_err result ≡ price_fault (Some (newest (row_of self.now).prices)) price }
    {
        check_price(Some(self.newest()), price)
    }

    /// Rolls the row forward: appends a price and keeps the latest 121. A price that does not pass the test is
    /// refused, and the row stays as it was.
    pub fn roll(&mut self, price: u32) -> Result<(), PriceFault>
        ensures answer { result_err result
            ≡ price_fault (Some (newest (row_of self.old).prices)) price }
        ensures rolled { Rolled self.old price self.new result }
    {
        self.test(price)?;
        let ratio = ratio_between(self.newest(), price);
        slide(&mut self.prices, price, MOST_PRICES);
        slide(&mut self.ratios, ratio, MOST_PRICES - 1);
        Ok(())
    }
}
