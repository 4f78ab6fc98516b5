// The entries that the coupling host, a C program, calls, and nothing else. include/lta_judgement.h says in words
// what the contracts say here.
#![tactic(auto)]

pub mod archive;
pub mod book;
pub mod dump;
pub mod hour;
pub mod intuitive_hours;
pub mod queue;
pub mod sheet;
pub mod shortfall_hours;
pub mod text;
pub mod version;
