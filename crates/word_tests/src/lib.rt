// Tests of the replay of timed words.
#![tactic(auto)]

#[cfg(test)]
mod files;
#[cfg(test)]
mod tests;
