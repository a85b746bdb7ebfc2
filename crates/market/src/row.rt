// An issue's prices.
ghost use Rattle.market.specs.Moves.{moves, parts};
ghost use Rattle.market.specs.Rows.{IsRow};
ghost use Rattle.std.specs.Prelude.{◌≡◌, ◌≤◌, map, vec_capacity};

use figure::Ratio;

/// An issue's code and 2 to 121 prices, oldest first, each 1 to 800,000 yen and none more than twice the one
/// before it; beside them the ratio of each neighbouring pair. There is room for all that it may ever keep.
// Ghost fields and no model: what holds is then known of every row that a caller has.
#[derive(Drop)]
pub struct Row {
    pub(crate) code: u32,
    // Two lists, since each is handed out as a slice and a row never wants memory once it is made.
    pub(crate) prices: Vec<u32>,
    pub(crate) ratios: Vec<Ratio>,
    ghost kept: { IsRow (record { code = code; prices = prices.items }) },
    ghost moved: { map parts ratios.items ≡ moves prices.items },
    ghost room: { (121 ≤ vec_capacity prices) × (120 ≤ vec_capacity ratios) },
}
