// The answer of a call: the search's, or the one-to-one match's (traverse.rs).
ghost use Rattle.std.specs.Prelude.{◌≡◌, [], reverse, ◌≤◌, length};
ghost use Rattle.paths.specs.Queue.{Walk};
ghost use Rattle.metrics.specs.Refusals.{refusal_number};
ghost use Rattle.params.specs.Held.{table_held, parts_held};
ghost use Rattle.params.specs.Numbers.{parts_of, call_of, first_fault};
ghost use Rattle.kplib.specs.OneToOne.{one_to_one, lone_rows_at};
ghost use Rattle.kplib.specs.Scoring.{Tables};
ghost use Rattle.kplib.specs.Search.{rows_for};
ghost use Rattle.kplib.specs.Answer.{searched, matched_alone, none_found, answer_with, queue_room};
ghost use Rattle.metrics.specs.Placed.{placed};
ghost use Rattle.kplib.specs.SearchSteps.{parents_of, lasts_of, chain_of, answer_parts, matched_by, Startable};
ghost use Rattle.kplib.specs.Promises.{call_lent, ApplyHaplotypePromise};

use crate::onetoone::{Lone, one_to_one};
use crate::pathscore::{Scored, Target, nothing};
use crate::queue::read_chain;
use crate::steps::search;
use crate::vargraph::Row;
use metrics::kmer::entries;
use metrics::refusals::{ACCEPTED, Refusal};
use params::checks::{call_fault, parts_fault, queue_room};
use params::graphparams::search_mode;
use params::{Parts, Settings, Table};

// `rows` is how many row numbers stand at the front of the answer buffer; `refusal` is 0 where the job was accepted.
#[derive(Clone, Copy)]
pub struct Answer {
    pub refusal: u32,
    pub rows: u32,
    pub target: Target,
    pub score: f32,
    pub sizesim: f32,
    pub seqsim: f32,
    pub scored: u32,
    pub complete: bool,
}

// Whether some part list matched.
fn matched(target: Target) -> bool
    ensures { result ≡ matched_by target }
{
    !matches!(target, Target::Nothing)
}

// Writes the rows of an entry's chain to the front of the answer buffer. Returns how many.
fn copy_chain(links: &[u32], entry: usize, rows: &mut [u32]) -> usize
    requires { (Walk (parents_of links.now) (lasts_of links.now) entry 64) × (length (chain_of links.now entry) ≤ length rows.old) }
    ensures { let chain = reverse (chain_of links.now entry) in
        (result ≡ length chain) × (rows.new ≡ placed rows.old chain) }
{
    let mut chain = [0u32; 64];
    let at = read_chain(links, entry, &mut chain);
    let count = 64 - at;
    rows[..count].copy_from_slice(&chain[at..]);
    count
}

// The same only where some part list matched.
fn place_chain(links: &[u32], entry: usize, target: Target, rows: &mut [u32]) -> usize
    requires { (Walk (parents_of links.now) (lasts_of links.now) entry 64) × (length (chain_of links.now entry) ≤ length rows.old) }
    ensures { let chain = rows_for target (reverse (chain_of links.now entry)) in
        (result ≡ length chain) × (rows.new ≡ placed rows.old chain) }
{
    if matched(target) {
        return copy_chain(links, entry, rows);
    }
    0
}

// A single row, where the haplotype matched it.
fn place_row(row: Row, target: Target, rows: &mut [u32]) -> usize
    requires { 1 ≤ length rows.old }
    ensures { (result ≡ length (lone_rows_at target row.0)) × (rows.new ≡ placed rows.old (lone_rows_at target row.0)) }
{
    if matched(target) {
        rows[0] = row.0;
        return 1;
    }
    0
}

fn answer_with(refusal: u32, rows: usize, x: Scored, count: usize, complete: bool) -> Answer
    requires { (rows ≤ 64) × (count ≤ 4096) }
    ensures { result ≡ answer_parts refusal rows x count complete }
{
    Answer {
        refusal,
        rows: rows as u32,
        target: x.target,
        score: x.score,
        sizesim: x.sizesim,
        seqsim: x.seqsim,
        scored: count as u32,
        complete,
    }
}

// The answer of a search.
fn answer_search(
    s: Settings,
    table: &Table,
    parts: &Parts,
    links: &mut [u32],
    keys: &mut [u64],
    rows: &mut [u32],
) -> Answer
    requires { let t = table_held table.now in
        (Startable s t (parts_held parts.now) (length links.old) (length keys.old)) × (length t.starts ≤ length rows.old) }
    ensures { let found = searched s (table_held table.now) (parts_held parts.now) in
        (result ≡ answer_with 0 found) × (rows.new ≡ placed rows.old found.rows) }
{
    let end = search(s, table, parts, links, keys);
    let scored = end.best.scored;
    let n = place_chain(links, end.best.entry, scored.target, rows);
    answer_with(ACCEPTED, n, scored, end.count, end.queued == 0)
}

// The one-to-one match, with the room that it asks.
fn alone(s: Settings, table: &Table, parts: &Parts) -> Lone
    requires { (1 ≤ s.k) × (s.k ≤ 6) × (Tables s (table_held table.now) (parts_held parts.now)) }
    ensures { result ≡ one_to_one s (table_held table.now) (parts_held parts.now) }
{
    let mut chosen = [0u32; 64];
    let mut whole_row = [0i32; 4096];
    let width = entries(s.k);
    one_to_one(s, table, parts, &mut chosen, &mut whole_row[..width])
}

// The answer of the one-to-one match.
fn answer_alone(s: Settings, table: &Table, parts: &Parts, rows: &mut [u32]) -> Answer
    requires le_k { (1 ≤ s.k) × (s.k ≤ 6) × (Tables s (table_held table.now) (parts_held parts.now)) }
    requires starts_len_bound { (length table.now.starts.now ≤ 64) × (1 ≤ length rows.old) }
    ensures { let found = matched_alone s (table_held table.now) (parts_held parts.now) in
        (result ≡ answer_with 0 found) × (rows.new ≡ placed rows.old found.rows) }
{
    let Lone { row, scored } = alone(s, table, parts);
    let n = place_row(row, scored.target, rows);
    answer_with(ACCEPTED, n, scored, table.starts.len() + 2, true)
}

// The answer of a call that the checks have accepted, by its mode.
fn answer_accepted(
    s: Settings,
    table: &Table,
    parts: &Parts,
    links: &mut [u32],
    keys: &mut [u64],
    rows: &mut [u32],
) -> Answer
    requires { first_fault (call_lent s table.now parts.now links.old keys.old rows.old) ≡ 0 }
    ensures { ApplyHaplotypePromise s table.now parts.now links.old keys.old rows.old
        links.new keys.new rows.new result }
{
    if search_mode(s, table.starts.len()) {
        return answer_search(s, table, parts, links, keys, rows);
    }
    answer_alone(s, table, parts, rows)
}

// The answer of a call that is refused.
fn answer_refused(refusal: Refusal) -> Answer
    ensures { result ≡ answer_with (refusal_number refusal) none_found }
{
    answer_with(refusal.into(), 0, nothing(), 0, false)
}

// The same of a haplotype whose table was checked: what is left to ask is its parts.
pub(crate) fn answer_haplotype(
    s: Settings,
    table: &Table,
    parts: &Parts,
    links: &mut [u32],
    keys: &mut [u64],
    rows: &mut [u32],
) -> Answer
    requires { let room = queue_room links.old keys.old in
        first_fault (call_of s (table_held table.now) (parts_of [] []) room (length rows.old)) ≡ 0 }
    ensures { ApplyHaplotypePromise s table.now parts.now links.old keys.old rows.old
        links.new keys.new rows.new result }
{
    if let Err(refusal) = parts_fault(s.k, parts) {
        return answer_refused(refusal);
    }
    answer_accepted(s, table, parts, links, keys, rows)
}

// The best chain of a table for a haplotype, or the best node alone. `links` and `keys` are the queue's room.
pub fn apply_haplotype(
    s: Settings,
    table: &Table,
    parts: &Parts,
    links: &mut [u32],
    keys: &mut [u64],
    rows: &mut [u32],
) -> Answer
    ensures { ApplyHaplotypePromise s table.now parts.now links.old keys.old rows.old
        links.new keys.new rows.new result }
{
    let room = queue_room(links.len(), keys.len());
    if let Err(refusal) = call_fault(s, table, parts, room, rows.len()) {
        return answer_refused(refusal);
    }
    answer_accepted(s, table, parts, links, keys, rows)
}
