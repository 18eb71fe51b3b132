// What a search or a one-to-one match is told once.
use params::Settings;

// `width` is how many entries a feature row has, `m` how many parts the haplotype has, `target` its size.
#[derive(Clone, Copy)]
pub(crate) struct Plan {
    pub s: Settings,
    pub width: usize,
    pub m: usize,
    pub target: i32,
}

// The part lists of a haplotype as they are laid down, each a code and a size.
#[derive(Clone, Copy)]
pub(crate) struct Laid<'a> {
    pub codes: &'a [u32],
    pub sizes: &'a [i32],
}

// What the steps of a search are told: beside the plan, the flags of all pairs of rows and the part lists, both laid down for
// the search (`'l`), the table's sizes and features (`'t`) and the parts' features (`'p`).
#[derive(Clone, Copy)]
pub(crate) struct Told<'t, 'p, 'l> {
    pub plan: Plan,
    pub together: &'l [bool; 4096],
    pub sizes: &'t [i32],
    pub features: &'t [i32],
    pub part_features: &'p [i32],
    pub lists: Laid<'l>,
}
