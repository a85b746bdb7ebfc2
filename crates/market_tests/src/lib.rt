// Tests of price sources and rows.
#![tactic(auto)]

#[cfg(test)]
mod rows;
#[cfg(test)]
mod sources;
