// Tests of model files: which are refused, with what number and place, and how an accepted one is read.
#![tactic(auto)]

#[cfg(test)]
mod bytes;
#[cfg(test)]
mod case;
#[cfg(test)]
mod files;
#[cfg(test)]
mod model;
#[cfg(test)]
mod rows;
#[cfg(test)]
mod tests;
