//! Whole runs of the bytecode of small classes: what instructions make, and how they fail.
#![tactic(auto)]

#[cfg(test)]
mod arrays;
#[cfg(test)]
mod calls;
#[cfg(test)]
mod casts;
#[cfg(test)]
mod failures;
#[cfg(test)]
mod heaps;
#[cfg(test)]
mod numbers;
#[cfg(test)]
mod stored;
#[cfg(test)]
mod switches;
