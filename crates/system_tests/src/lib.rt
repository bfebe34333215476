//! Whole runs of the bytecode of small systems: tasks, resources, events, alarms, domains and initialisers.
#![tactic(auto)]

#[cfg(test)]
mod alarms;
#[cfg(test)]
mod domains;
#[cfg(test)]
mod events;
#[cfg(test)]
mod inits;
#[cfg(test)]
mod kernel;
#[cfg(test)]
mod worked_rows;
