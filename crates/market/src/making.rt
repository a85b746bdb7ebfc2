// A row is made of a run of prices.
ghost use Rattle.market.specs.Rows.{holds_other, row_denial, prices};
ghost use Rattle.market.specs.Limits.{WithinLimits, first_fault};
ghost use Rattle.std.specs.Prelude.{◌≡◌, ◌≤◌, map, length, All, IfOk, None, vec_capacity};
ghost use Rattle.std.specs.Result.{result_err};
ghost use Rattle.market.specs.Moves.{moves, move_between, parts};
ghost use Rattle.market.specs.View.{MadeOf};

use crate::fault::{PriceFault, RowFault};
use crate::limits::check_price;
use crate::row::Row;
use figure::Ratio;
use record::Quote;
use std::alloc::{AllocError, Global};

/// The fewest and the most prices that a row has.
const FEWEST_PRICES: usize = 2;

pub(crate) const MOST_PRICES: usize = 121;

/// Whether a run holds a price of another issue.
fn holds_other(run: &[Quote], code: u32) -> bool
    ensures { result ≡ holds_other code run.now }
{
    run.iter().any(|quote| quote.code != code)
}

/// Refuses a run for the first fault of its prices, from the oldest.
fn check_prices(run: &[Quote]) -> Result<(), PriceFault>
    ensures { result_err result ≡ first_fault None (prices run.now) }
{
    let mut former = None;
    for quote in run {
        check_price(former, quote.price)?;
        former = Some(quote.price);
    }
    Ok(())
}

/// Refuses a run of which no row of this code is made.
fn check_run(code: u32, run: &[Quote]) -> Result<(), RowFault>
    ensures { result_err result ≡ row_denial code run.now }
{
    if code == 0 {
        return Err(RowFault::Code);
    }
    if !(FEWEST_PRICES..=MOST_PRICES).contains(&run.len()) || holds_other(run, code) {
        return Err(RowFault::Run);
    }
    check_prices(run).map_err(|fault| RowFault::Price { code, fault })
}

/// The ratio of a neighbouring pair of prices: how far the later one lies from the earlier one, over the earlier one.
pub(crate) fn ratio_between(earlier: u32, later: u32) -> Ratio
    requires { 1 ≤ earlier }
    ensures { parts result ≡ move_between earlier later }
{
    Ratio {
        numerator: later.abs_diff(earlier),
        denominator: u64::from(earlier),
    }
}

/// A run's prices alone, with room for all that a row may keep.
fn prices_of(heap: Global, run: &[Quote]) -> Result<Vec<u32>, AllocError>
    ensures items { IfOk result (λ v. v.items ≡ prices run.now) }
    ensures room { IfOk result (λ v. 121 ≤ vec_capacity v) }
{
    let mut prices = Vec::with_capacity(heap, MOST_PRICES)?;
    prices.extend(run.iter().map(|quote| quote.price))?;
    Ok(prices)
}

/// The ratios of neighbouring prices, with room for all that a row may keep.
fn ratios_of(heap: Global, prices: &[u32]) -> Result<Vec<Ratio>, AllocError>
    requires some { 1 ≤ length prices.now }
    requires limits { All WithinLimits prices.now }
    ensures items { IfOk result (λ v. map parts v.items ≡ moves prices.now) }
    ensures room { IfOk result (λ v. 120 ≤ vec_capacity v) }
{
    let mut ratios = Vec::with_capacity(heap, MOST_PRICES - 1)?;
    ratios.extend(
        prices
            .iter()
            .zip(&prices[1..])
            .map(|(earlier, later)| ratio_between(*earlier, *later)),
    )?;
    Ok(ratios)
}

impl Row {
    /// A row of the run's prices. Refuses code 0, then a run that has not 2 to 121 prices or holds another issue,
    /// then, price by price from the oldest, one outside its limits and one above twice the former.
    pub fn new(heap: Global, code: u32, run: &[Quote]) -> Result<Row, RowFault>
        ensures { MadeOf code run.now result }
    {
        check_run(code, run)?;
        let prices = prices_of(heap, run)?;
        let ratios = ratios_of(heap, &prices)?;
        Ok(Row {
            code,
            prices,
            ratios,
        })
    }
}
