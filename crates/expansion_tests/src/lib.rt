//! Tests of the public calls of `effect_term` and `derived_ops`, on programs that are read from text.
#![tactic(auto)]

#[cfg(test)]
mod counts;
#[cfg(test)]
mod expansions;
#[cfg(test)]
mod limits;
#[cfg(test)]
mod names;
#[cfg(test)]
mod pieces;
