//! Tests of what the map machine stands on: served layers, batches, feature information and the capabilities document;
//! and of its runs. By public calls alone: each test checks a value that was worked by hand, or that no clause can say.
#![tactic(auto)]

#[cfg(test)]
mod changed_layers;
#[cfg(test)]
mod commands;
#[cfg(test)]
mod documents;
#[cfg(test)]
mod found_features;
#[cfg(test)]
mod long_rings;
#[cfg(test)]
mod maps;
#[cfg(test)]
mod queried_layers;
#[cfg(test)]
mod runs;
#[cfg(test)]
mod smoothed_lines;
#[cfg(test)]
mod tiles;
