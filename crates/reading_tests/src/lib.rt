//! Tests of the crates that read tokens, expressions, fonts and tables, and of the types of maps, by their public
//! calls alone: each test checks a value that was worked by hand, or that no clause can say.
#![tactic(auto)]

#[cfg(test)]
mod changed_maps;
#[cfg(test)]
mod expression_trees;
#[cfg(test)]
mod expression_truths;
#[cfg(test)]
mod fonts;
#[cfg(test)]
mod map_values;
#[cfg(test)]
mod point_tables;
#[cfg(test)]
mod tables;
#[cfg(test)]
mod tokens;
