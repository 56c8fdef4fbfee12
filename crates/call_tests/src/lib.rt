//! Tests of public calls that no run of the program says alone: lists, desks and structures, definitions
//! on small models, regions, the steps of a log, and what reads and writes its lines. Most are tables of
//! steps or of texts. They stand in a crate of their own because a crate with tests is proved a second
//! time with them; what whole runs say stands in the cases of `trials`.
#![tactic(auto)]

#[cfg(test)]
mod base_tests;
#[cfg(test)]
mod energy_tests;
#[cfg(test)]
mod generated_tests;
#[cfg(test)]
mod lines;
#[cfg(test)]
mod models;
#[cfg(test)]
mod piece_tests;
#[cfg(test)]
mod printing_tests;
#[cfg(test)]
mod queue_tests;
#[cfg(test)]
mod reader_tests;
#[cfg(test)]
mod region_tests;
#[cfg(test)]
mod sentence_tests;
#[cfg(test)]
mod small_tests;
#[cfg(test)]
mod step_tests;
#[cfg(test)]
mod text_tests;
#[cfg(test)]
mod tree_tests;
#[cfg(test)]
mod value_tests;
#[cfg(test)]
mod weak_tests;
#[cfg(test)]
mod writer_tests;
