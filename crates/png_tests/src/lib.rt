//! Tests of the crate that writes PNG, by its public calls alone: how long a file is, which no clause says. A palette, true
//! colours, alphas, filters and repeats show in it.
#![tactic(auto)]

#[cfg(test)]
mod lengths;
#[cfg(test)]
mod longer_matches;
#[cfg(test)]
mod scattered;
#[cfg(test)]
mod smoothed;
