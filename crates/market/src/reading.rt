// What a row tells.
ghost use Rattle.market.specs.Moves.{moves, parts};
ghost use Rattle.market.specs.View.{row_of, Covering};
ghost use Rattle.std.specs.Prelude.{◌≡◌, ◌≤◌, map, length, IsOkAnd};

use crate::covering::CoveringRatio;
use crate::fault::MarketFault;
use crate::row::Row;
use figure::{Ratio, cover};

/// At least so many in a hundred of a row's ratios are not above its covering one.
const PERCENT: u32 = 99;

impl Row {
    pub fn code(&self) -> u32
        ensures { result ≡ (row_of self.now).code }
    {
        self.code
    }

    /// The prices, oldest first.
    pub fn prices(&self) -> &[u32]
        ensures value { result.now ≡ (row_of self.now).prices }
    {
        self.prices.as_slice()
    }

    /// The ratio of each neighbouring pair of prices, oldest first.
    pub fn ratios(&self) -> &[Ratio]
        ensures value { map parts result.now ≡ moves (row_of self.now).prices }
        ensures count { (1 ≤ length result.now) × (length result.now ≤ 120) }
    {
        self.ratios.as_slice()
    }

    /// The ratio that covers the row at 99 percent. Every row has one, so no fault ever comes of the cover.
    pub fn covering(&self) -> Result<CoveringRatio, MarketFault>
        ensures { IsOkAnd result (Covering (row_of self.now).prices) }
    {
        let Some((place, count)) = cover(&self.ratios, PERCENT)? else {
            unreachable!()
        };
        Ok(CoveringRatio {
            ratio: self.ratios[place],
            place,
            count,
        })
    }
}
