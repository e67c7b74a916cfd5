//! Calls each public function of the crates that know no formula's text, with answers that the
//! formats and worked examples give: a file for each crate.
#![tactic(auto)]

#[cfg(test)]
mod facts;
#[cfg(test)]
mod formulas;
#[cfg(test)]
mod grammars;
#[cfg(test)]
mod lists;
#[cfg(test)]
mod tables;
#[cfg(test)]
mod words;
