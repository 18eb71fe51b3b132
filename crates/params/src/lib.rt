// The settings of a job and the checks of a call: all that is asked before any work is done.
#![tactic(auto)]

pub mod checks;
pub mod graphparams;
pub mod order;
pub mod several;

// The fields of graphparams.rs that document 01 takes, and document 02's `letters`: one value that goes from the job form to the search.
#[derive(Clone, Copy)]
pub struct Settings {
    pub k: u8,
    pub squish: bool,
    pub one_to_one: bool,
    pub full: bool,
    pub maxpaths: u32,
    pub maxnodes: u32,
    pub fnmax: u32,
    pub pileupmax: u32,
    pub minkfreq: u32,
    pub letters: u8,
    pub sizesim: f32,
    pub seqsim: f32,
    pub fpenalty: f32,
    pub gpenalty: f32,
}

// What a caller lends of a table of variants, row by row: V is the number of starts.
#[derive(Clone, Copy)]
pub struct Table<'a> {
    pub starts: &'a [u64],
    pub ends: &'a [u64],
    pub sizes: &'a [i32],
    pub features: &'a [i32],
}

// What a caller lends of the parts of a haplotype, or of several one behind the other: m is the number of sizes.
#[derive(Clone, Copy)]
pub struct Parts<'a> {
    pub sizes: &'a [i32],
    pub features: &'a [i32],
}
