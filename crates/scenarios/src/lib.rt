//! Whole runs: what books and scripts print. And what the calls at the bottom give as compiled.
#![tactic(auto)]

#[cfg(test)]
mod circles;
#[cfg(test)]
mod devices;
#[cfg(test)]
mod edits;
#[cfg(test)]
mod fields;
#[cfg(test)]
mod formulas;
#[cfg(test)]
mod numbers;
#[cfg(test)]
mod operators;
#[cfg(test)]
mod references;
#[cfg(test)]
mod refusals;
#[cfg(test)]
mod runs;
