// The search core: part lists, graph, score, search.
#![tactic(auto)]

pub mod checkpath;
mod haplotype;
pub mod haplotypes;
mod heap;
mod onetoone;
pub mod pathscore;
mod plan;
mod queue;
pub mod report;
mod steps;
mod sums;
pub mod traverse;
pub mod vargraph;
