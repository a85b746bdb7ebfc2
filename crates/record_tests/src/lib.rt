// Tests of reading, writing and checking records.
#![tactic(auto)]

#[cfg(test)]
mod letters;
