//! Runs of the program, by command.

mod check;
mod confirm;
mod convert;
mod demo;
mod export;
mod faults;
mod prove;
mod refused;
mod refute;
mod running;
mod words;
