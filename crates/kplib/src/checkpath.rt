// Whether a path that someone else proposes is one that the search could have found (document 02, P13). One list is scored against one chain, whatever V, m and fnmax are.
ghost use Rattle.std.specs.Prelude.{Float, ◌≡◌, ◌&&◌, reverse, ◌^◌, ◌≤◌, ◌<◌, ltb, length};
ghost use Rattle.paths.specs.Chains.{first_after};
ghost use Rattle.paths.specs.Count.{stands_with_all};
ghost use Rattle.metrics.specs.Refusals.{told};
ghost use Rattle.params.specs.Held.{table_held, parts_held};
ghost use Rattle.kplib.specs.Graph.{edge, extends_in, is_chain_in};
ghost use Rattle.kplib.specs.Parts.{part_lists};
ghost use Rattle.kplib.specs.Scoring.{AllBelow};
ghost use Rattle.kplib.specs.Proposal.{one_of, gives, proposal_of, pair_score, proposal_fault, rises_below, fewest_of, Pairable};
ghost use Rattle.kplib.specs.Promises.{CheckPathPromise};

use crate::pathscore::{Scores, Total, list_score};
use crate::queue::rows_size;
use crate::sums::sum_features;
use metrics::floats::bits_of;
use metrics::kmer::entries;
use metrics::overlaps;
use metrics::refusals::Refusal;
use params::checks::call_fault;
use params::{Parts, Settings, Table};

// 1 to 10 and 16, then 54, whatever the score is. The rooms are as large as any call asks, so that neither 11 nor 12 is given.
fn proposal_fault(
    s: Settings,
    table: &Table,
    parts: &Parts,
    rows: &[u32],
    positions: &[u32],
) -> Result<(), Refusal>
    ensures { (score : Float) → told result ≡ proposal_fault s (table_held table.now) (parts_held parts.now) (proposal_of rows.now positions.now score) }
{
    call_fault(s, table, parts, 262145, 64)?;
    if rows.len() > 64 || positions.len() > 64 {
        return Err(Refusal::LongProposal);
    }
    Ok(())
}

// Whether a row overlaps none of a chain's.
fn stands_with_all(starts: &[u64], ends: &[u64], chain: &[u32], s: usize) -> bool
    requires { (length ends.now ≡ length starts.now) × (length starts.now ≤ 64) × (s < length starts.now) × AllBelow (length starts.now) chain.now }
    ensures { result ≡ stands_with_all (edge starts.now ends.now) (reverse chain.now) s }
{
    for row in chain {
        let r = *row as usize;
        if overlaps(starts[r], ends[r], starts[s], ends[s]) {
            return false;
        }
    }
    true
}

// Whether there is such a row and it extends a chain, which ends right before row `next`.
fn row_extends(
    starts: &[u64],
    ends: &[u64],
    full: bool,
    chain: &[u32],
    next: usize,
    s: usize,
) -> bool
    requires { (length ends.now ≡ length starts.now) × (length starts.now ≤ 64) × AllBelow (length starts.now) chain.now × (next ≡ first_after (reverse chain.now)) }
    ensures { let starts = starts.entry.now in
        result ≡ (ltb s (length starts) && extends_in starts ends.now full (reverse chain.now) s) }
{
    if s >= starts.len() || s < next || !full {
        return false;
    }
    stands_with_all(starts, ends, chain, s)
}

// Whether rows, as they are sent, are a chain: each is there and extends those before it.
fn is_chain(starts: &[u64], ends: &[u64], full: bool, rows: &[u32]) -> bool
    requires { (length ends.now ≡ length starts.now) × (length starts.now ≤ 64) }
    ensures { result ≡ is_chain_in starts.now ends.now full (reverse rows.now) }
{
    let mut next: usize = 0;
    for (i, row) in rows.iter().enumerate() {
        let s = *row as usize;
        if !row_extends(starts, ends, full, &rows[..i], next, s) {
            return false;
        }
        next = s + 1;
    }
    true
}

// How many positions a part list has at least.
fn fewest(m: usize, fnmax: u32, pileupmax: u32) -> usize
    ensures { result ≡ fewest_of m fnmax pileupmax }
{
    if pileupmax as usize <= m {
        return m;
    }
    m.saturating_sub(fnmax as usize).max(1)
}

// Whether positions rise, all below m.
fn rises_below(m: usize, positions: &[u32]) -> bool
    ensures { result ≡ rises_below m 0 positions.now }
{
    let mut next: usize = 0;
    for position in positions {
        let p = *position as usize;
        if p < next || m <= p {
            return false;
        }
        next = p + 1;
    }
    true
}

// Whether positions are one of the part lists, of which there may be thousands: none is laid down.
fn is_part_list(m: usize, fnmax: u32, pileupmax: u32, positions: &[u32]) -> bool
    ensures { result ≡ one_of positions.now (part_lists m fnmax pileupmax) }
{
    fewest(m, fnmax, pileupmax) <= positions.len() && rises_below(m, positions)
}

// One list scored against one chain. The scratch is lent, a feature row for each.
fn pair_score(
    s: Settings,
    table: &Table,
    parts: &Parts,
    rows: &[u32],
    positions: &[u32],
    chain_row: &mut [i32],
    list_row: &mut [i32],
) -> Option<Scores>
    requires { Pairable s (table_held table.now) (parts_held parts.now) rows.now positions.now
        × (length chain_row.old ≡ 4 ^ s.k) × (length list_row.old ≡ 4 ^ s.k) }
    ensures { result ≡ pair_score s (table_held table.now) (parts_held parts.now) rows.now positions.now }
{
    sum_features(table.features, rows, chain_row);
    sum_features(parts.features, positions, list_row);
    let chain = Total {
        size: rows_size(table.sizes, rows),
        features: chain_row,
        count: rows.len(),
    };
    let list = Total {
        size: rows_size(parts.sizes, positions),
        features: list_row,
        count: positions.len(),
    };
    list_score(s, chain, list, parts.sizes.len() - positions.len())
}

// The same, with the room that it asks.
fn score_pair(
    s: Settings,
    table: &Table,
    parts: &Parts,
    rows: &[u32],
    positions: &[u32],
) -> Option<Scores>
    requires { Pairable s (table_held table.now) (parts_held parts.now) rows.now positions.now }
    ensures { result ≡ pair_score s (table_held table.now) (parts_held parts.now) rows.now positions.now }
{
    let mut chain_row = [0i32; 4096];
    let mut list_row = [0i32; 4096];
    let width = entries(s.k);
    pair_score(
        s,
        table,
        parts,
        rows,
        positions,
        &mut chain_row[..width],
        &mut list_row[..width],
    )
}

// Whether every skip test was passed, and to this score, greater than 0, bit for bit.
fn gives_score(score: f32, verdict: Option<Scores>) -> bool
    ensures { result ≡ gives score verdict }
{
    match verdict {
        Some(scores) if 0.0 < score => bits_of(scores.score) == bits_of(score),
        _ => false,
    }
}

// Whether the rows are a chain, the positions a part list, and that list scored against that chain gives that score, greater than 0, bit for bit.
pub fn check_path(
    s: Settings,
    table: &Table,
    parts: &Parts,
    rows: &[u32],
    positions: &[u32],
    score: f32,
) -> Result<bool, Refusal>
    ensures { CheckPathPromise s table.now parts.now rows.now positions.now score result }
{
    proposal_fault(s, table, parts, rows, positions)?;
    if !is_chain(table.starts, table.ends, s.full, rows) {
        return Ok(false);
    }
    if !is_part_list(parts.sizes.len(), s.fnmax, s.pileupmax, positions) {
        return Ok(false);
    }
    let verdict = score_pair(s, table, parts, rows, positions);
    Ok(gives_score(score, verdict))
}
