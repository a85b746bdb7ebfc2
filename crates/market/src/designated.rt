// Prices that the clearing house sets.
ghost use Rattle.market.specs.Designation.{Designates, set_denial, remove_denial};
ghost use Rattle.std.specs.FinMap as map;
ghost use Rattle.std.specs.Prelude.{◌≡◌, ◌+◌, ◌≤◌, ◌==◌, if◌then◌else◌, [], length, position, vec_capacity, MatchResult, OnOk, OnErr};
ghost use Rattle.std.specs.Result.{result_err};

use crate::fault::MarketFault;
use crate::limits::is_outside_limits;
use crate::source::PriceSource;
use record::Quote;
use std::alloc::Global;

/// The most issues that may be designated.
const MOST: usize = 16;

/// Up to 16 issues with prices that the clearing house sets.
// Ghost fields and no model: what holds is then known of every list that a caller has.
#[derive(Drop)]
pub struct DesignatedList {
    // Fixed memory: a map may want some when a price is set, and this has room for all quotes from the start.
    quotes: Vec<Quote>,
    ghost room: { 16 ≤ vec_capacity quotes },
    ghost kept: { Designates quotes.items },
}

/// The place of a code among quotes.
fn place_of(quotes: &[Quote], code: u32) -> Option<usize>
    ensures { result ≡ position (λ q. q.code == code) quotes.now }
{
    quotes.iter().position(|quote| quote.code == code)
}

impl DesignatedList {
    ghost use Rattle.market.specs.Designated.{quotes_of, prices_of};

    /// A list without issues, with room for all that it may take.
    pub fn new(heap: Global) -> Result<DesignatedList, MarketFault>
        ensures { MatchResult result (λ list. quotes_of list ≡ [])
            (λ fault. fault ≡ MarketFault.Memory) }
    {
        let quotes = Vec::with_capacity(heap, MOST)?;
        Ok(DesignatedList { quotes })
    }

    /// Sets the price of an issue, or replaces it. Refuses code 0 (15), then a price outside its limits (18),
    /// then a seventeenth issue (29).
    pub fn set(&mut self, code: u32, price: u32) -> Result<(), MarketFault>
        ensures answer { result_err result ≡ set_denial (prices_of self.old) code price }
        ensures changed_at_the_code_alone { OnOk result
            (prices_of self.new ≡ map.insert (prices_of self.old) code price) }
        ensures one_more_where_new { OnOk result (length (quotes_of self.new)
            ≡ length (quotes_of self.old)
            + (if map.contains_key (prices_of self.old) code then 0 else 1)) }
        ensures refusal_changes_nothing { OnErr result (self.new ≡ self.old) }
    {
        if code == 0 {
            return Err(MarketFault::Code { code });
        }
        if is_outside_limits(price) {
            return Err(MarketFault::Price { code });
        }
        match place_of(&self.quotes, code) {
            Some(place) => self.quotes[place].price = price,
            None if self.quotes.len() >= MOST => return Err(MarketFault::Full),
            None => self.quotes.push_reserved(Quote { code, price }),
        }
        Ok(())
    }

    /// Removes the price of an issue. Refuses an issue that is not designated (20).
    pub fn remove(&mut self, code: u32) -> Result<(), MarketFault>
        ensures answer { result_err result ≡ remove_denial (prices_of self.old) code }
        ensures changed_at_the_code_alone { OnOk result
            (prices_of self.new ≡ map.remove (prices_of self.old) code) }
        ensures one_fewer { OnOk result
            (length (quotes_of self.new) + 1 ≡ length (quotes_of self.old)) }
        ensures refusal_changes_nothing { OnErr result (self.new ≡ self.old) }
    {
        let Some(place) = place_of(&self.quotes, code) else {
            return Err(MarketFault::NotDesignated { code });
        };
        self.quotes.remove(place);
        Ok(())
    }
}

impl PriceSource for DesignatedList {
    ghost use Rattle.market.specs.Designated.{prices_of};

    const LETTER: u8 = b'D';

    ghost means = { λ list. map.get (prices_of list) };

    ghost mark = { 68 };

    fn consult(&mut self, code: u32) -> Option<u32> {
        // By its place: with `find` this takes half as long again, or more.
        let Some(place) = place_of(&self.quotes, code) else {
            return None;
        };
        Some(self.quotes[place].price)
    }

    fn source_letter(&self) -> u8 {
        Self::LETTER
    }
}
