// Where prices come from, and the row of prices that is kept of an issue.
#![tactic(auto)]

mod covering;
mod designated;
mod fault;
mod joined;
mod limits;
mod making;
mod reading;
mod rolling;
mod row;
mod sheet;
mod source;

pub use covering::CoveringRatio;
pub use designated::DesignatedList;
pub use fault::{MarketFault, PriceFault, RowFault};
pub use joined::Joined;
pub use record::Quote;
pub use row::Row;
pub use sheet::Sheet;
pub use source::PriceSource;
