//! Calls each public function of the crates that read, print and check texts of formulas, with
//! answers that the formats and worked examples give: a file for each crate.
#![tactic(auto)]

#[cfg(test)]
mod english;
#[cfg(test)]
mod forms;
#[cfg(test)]
mod gaps;
#[cfg(test)]
mod inclusions;
#[cfg(test)]
mod isar;
#[cfg(test)]
mod items;
#[cfg(test)]
mod made;
#[cfg(test)]
mod printing;
#[cfg(test)]
mod scripts;
#[cfg(test)]
mod tasks;
#[cfg(test)]
mod trees;
