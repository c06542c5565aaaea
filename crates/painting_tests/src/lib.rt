//! Tests of the pictures of maps, by public calls alone: each test checks a value that was worked by hand, or that
//! no clause can say.
#![tactic(auto)]

#[cfg(test)]
mod blocks;
#[cfg(test)]
mod near_features;
#[cfg(test)]
mod painted_maps;
#[cfg(test)]
mod painted_pixels;
#[cfg(test)]
mod round_lines;
#[cfg(test)]
mod smoothed;
