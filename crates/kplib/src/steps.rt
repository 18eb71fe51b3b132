// The search over the chains of a table, step by step (traverse.rs).
ghost use Rattle.std.specs.Prelude.{◌≡◌, reverse, ◌+◌, ◌<◌, ◌≤◌, length};
ghost use Rattle.params.specs.Held.{table_held, parts_held};
ghost use Rattle.kplib.specs.Told.{told_held};
ghost use Rattle.kplib.specs.SearchSteps.{chain_of, later_of, advanced, not_begun, Weighable, WeighedAs, Searchable, Going, Gone, Startable, Searched};

use crate::haplotype::{lay_lists, whole_size};
use crate::pathscore::{Chain, Scored, nothing, score_chain};
use crate::plan::{Laid, Plan, Told};
use crate::queue::{key, queue_extensions, read_chain, rows_size, take_next};
use crate::vargraph::lay_pairs;
use metrics::kmer::entries;
use params::{Parts, Settings, Table};

// A chain's size and score.
#[derive(Clone, Copy)]
pub(crate) struct Weighed {
    size: i32,
    scored: Scored,
}

// The best result so far: the entry whose chain has it, and its score.
#[derive(Clone, Copy)]
pub(crate) struct Leader {
    pub entry: usize,
    pub scored: Scored,
}

// Where a search stands: how many entries and how many keys the queue has, how many chains are scored, and the best of them.
#[derive(Clone, Copy)]
pub(crate) struct Progress {
    used: usize,
    pub queued: usize,
    pub count: usize,
    pub best: Leader,
}

// Reads an entry's chain back, and scores it for a search whose best is at `floor`.
fn weigh(told: &Told, links: &[u32], entry: usize, scratch: &mut [i32], floor: f32) -> Weighed
    requires { Weighable (told_held told.now) links.now entry scratch.old }
    ensures { WeighedAs (told_held told.now) (reverse (chain_of links.now entry)) floor result }
{
    let mut chain = [0u32; 64];
    let mut chosen = [0u32; 64];
    let at = read_chain(links, entry, &mut chain);
    let rows = &chain[at..];
    let size = rows_size(told.sizes, rows);
    let scored = score_chain(told, Chain { rows, size }, &mut chosen, scratch, floor);
    Weighed { size, scored }
}

// The later of two results, unless it is lower.
fn later_of(a: Leader, b: Leader) -> Leader
    ensures { result ≡ later_of a b }
{
    if a.scored.score <= b.scored.score {
        b
    } else {
        a
    }
}

// Where the search stands after an entry was scored and `added` entries were queued.
fn advance(at: Progress, entry: usize, scored: Scored, added: usize) -> Progress
    requires { (0 < at.queued) × (at.used ≤ 1048576) × (at.queued ≤ 1048576) × (at.count ≤ 4096) × (added ≤ 64) }
    ensures { result ≡ advanced at entry scored added }
{
    Progress {
        used: at.used + added,
        queued: at.queued - 1 + added,
        count: at.count + 1,
        best: later_of(at.best, Leader { entry, scored }),
    }
}

// One step of the search: takes the nearest chain, scores it, and queues its extensions.
fn step(
    told: &Told,
    links: &mut [u32],
    keys: &mut [u64],
    scratch: &mut [i32],
    at: Progress,
) -> Progress
    requires { let q = told_held told.now in
        (Searchable q (length links.old) (length keys.old) (length scratch.old))
        × ((0 < at.queued) × (at.count < q.plan.s.maxpaths + 1) × (Going q links.old keys.old at)) }
    ensures { (Going (told_held told.now) links.new keys.new result) × (result.count ≡ at.count + 1) }
{
    let entry = take_next(keys, at.queued);
    let floor = at.best.scored.score;
    let Weighed { size, scored } = weigh(told, links, entry, scratch, floor);
    let added = queue_extensions(told, links, keys, at.used, at.queued - 1, entry, size);
    advance(at, entry, scored, added)
}

// Steps until none is queued or maxpaths + 1 chains are scored.
fn run(
    told: &Told,
    links: &mut [u32],
    keys: &mut [u64],
    scratch: &mut [i32],
    from: Progress,
) -> Progress
    requires { let q = told_held told.now in
        (Searchable q (length links.old) (length keys.old) (length scratch.old)) × (Going q links.old keys.old from) }
    ensures { Gone (told_held told.now) links.new result }
{
    let steps = told.plan.s.maxpaths as usize + 1;
    let mut at = from;
    while 0 < at.queued && at.count < steps {
        at = step(told, links, keys, scratch, at);
    }
    at
}

// Before the first step: the empty chain is queued.
fn not_begun() -> Progress
    ensures { result ≡ not_begun }
{
    Progress {
        used: 1,
        queued: 1,
        count: 0,
        best: Leader {
            entry: 0,
            scored: nothing(),
        },
    }
}

// The search, with the room that it asks: codes and sizes of at most 2,047 part lists and the flags of all pairs, laid down once, and a feature row.
pub(crate) fn search(
    s: Settings,
    table: &Table,
    parts: &Parts,
    links: &mut [u32],
    keys: &mut [u64],
) -> Progress
    requires { Startable s (table_held table.now) (parts_held parts.now) (length links.old) (length keys.old) }
    ensures { Searched s (table_held table.now) (parts_held parts.now) links.new result }
{
    let mut codes = [0u32; 2047];
    let mut list_sizes = [0i32; 2047];
    let mut scratch = [0i32; 4096];
    let width = entries(s.k);
    let count = lay_lists(s, parts.sizes, &mut codes, &mut list_sizes);
    let target = whole_size(parts.sizes);
    let plan = Plan {
        s,
        width,
        m: parts.sizes.len(),
        target,
    };
    // laid where it stands: a copy of it would cost each search 4 KiB of stack
    let mut together = [true; 4096];
    lay_pairs(table.starts, table.ends, &mut together);
    keys[0] = key(0, target, 0);
    let lists = Laid {
        codes: &codes[..count],
        sizes: &list_sizes[..count],
    };
    let told = Told {
        plan,
        together: &together,
        sizes: table.sizes,
        features: table.features,
        part_features: parts.features,
        lists,
    };
    run(&told, links, keys, &mut scratch[..width], not_begun())
}
