//! Tests of the crates that say which pixels a shape covers, by their public calls alone: each test checks a
//! value that was worked by hand, or that no clause can say.
#![tactic(auto)]

#[cfg(test)]
mod blocks;
#[cfg(test)]
mod boxes_in_windows;
#[cfg(test)]
mod clipped_edges;
#[cfg(test)]
mod discs;
#[cfg(test)]
mod edges;
#[cfg(test)]
mod filled_rows;
#[cfg(test)]
mod lines_and_squares;
#[cfg(test)]
mod numbers;
#[cfg(test)]
mod parallels;
#[cfg(test)]
mod pixels;
#[cfg(test)]
mod pixmaps;
#[cfg(test)]
mod placed_boxes;
#[cfg(test)]
mod places;
#[cfg(test)]
mod round_lines;
#[cfg(test)]
mod shapes;
#[cfg(test)]
mod views;
