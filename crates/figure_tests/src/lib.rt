// Tests of the cover and of ratios.
#![tactic(auto)]

#[cfg(test)]
mod covers;
#[cfg(test)]
mod ratios;
