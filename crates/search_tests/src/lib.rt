//! Calls the crates that seek proofs, solve clauses and confirm countermodels, with answers that the
//! rules, the formats and worked examples give: a file for each.
#![tactic(auto)]

#[cfg(test)]
mod contexts;
#[cfg(test)]
mod models;
#[cfg(test)]
mod problems;
#[cfg(test)]
mod searches;
#[cfg(test)]
mod solvers;
#[cfg(test)]
mod widest;
