//! Tests of the crates that read and write texts and bytes, over their public functions: beside the crates, so that these are
//! proved once.
#![tactic(auto)]

#[cfg(test)]
mod class_files;
#[cfg(test)]
mod configurations;
#[cfg(test)]
mod frames;
#[cfg(test)]
mod instructions;
#[cfg(test)]
mod kernel_tables;
#[cfg(test)]
mod motor;
#[cfg(test)]
mod oil_texts;
#[cfg(test)]
mod scripts;
