//! Tests of worlds over their public functions: beside the crate, so that it is proved once.
#![tactic(auto)]

#[cfg(test)]
mod refusals;
#[cfg(test)]
mod stored;
#[cfg(test)]
mod worlds;
