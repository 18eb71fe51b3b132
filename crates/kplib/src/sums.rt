// Sums of feature rows, and the sums that seqsim is made of, over a chain's row and a list's rows block by block.
ghost use Rattle.std.specs.Prelude.{◌≡◌, cond, ◌+◌, ◌-◌, ◌≤◌, ◌<◌, leb, length, take, drop};
ghost use Rattle.metrics.specs.Similarity.{magnitude_sum};
ghost use Rattle.kplib.specs.Sums.{row_plus, features_of};
ghost use Rattle.kplib.specs.Blocks.{parts_from, pair_on, sums_on, Addable, Passable, Blockable};
ghost use Rattle.kplib.specs.Scoring.{Summable};

use metrics::kmer::clear_row;
use metrics::lanes::magnitude;

fn add_row(acc: &mut [i32], row: &[i32])
    requires { (length row.now ≡ length acc.old) × (magnitude_sum acc.old ≤ 8388608) × (magnitude_sum row.now ≤ 131072) }
    ensures { acc.new ≡ row_plus acc.old row.now }
{
    for (i, x) in row.iter().enumerate() {
        acc[i] += *x;
    }
}

// Adds a part of each row of a table that a list names: as many entries as `out` has, from `from` on.
fn add_parts(table: &[i32], rows: &[u32], width: usize, from: usize, out: &mut [i32])
    requires { (Summable width table.now rows.now) × (from + length out.old ≤ width) × (magnitude_sum out.old ≡ 0) }
    ensures { out.new ≡ parts_from width from (length out.old) table.now out.old rows.now }
{
    let len = out.len();
    for r in rows {
        let a = (*r as usize) * width + from;
        add_row(out, &table[a..a + len]);
    }
}

pub(crate) fn sum_features(table: &[i32], rows: &[u32], out: &mut [i32])
    requires { Summable (length out.old) table.now rows.now }
    ensures { out.new ≡ features_of (length out.old) table.now rows.now }
{
    let width = out.len();
    clear_row(out);
    add_parts(table, rows, width, 0, out);
}

// The magnitudes of a row, summed.
pub(crate) fn weight_of(row: &[i32]) -> u32
    requires { magnitude_sum row.now ≤ 8388608 }
    ensures { result ≡ magnitude_sum row.now }
{
    let mut sum: u32 = 0;
    for x in row {
        sum += magnitude(*x);
    }
    sum
}

// Document 01's d and n, of a part of two rows.
#[derive(Clone, Copy)]
pub(crate) struct Sums {
    pub(crate) d: u32,
    pub(crate) n: u32,
}

// v where t is at least minkfreq, else 0. Vectors of signed numbers are compared with one instruction less.
fn kept(t: u32, minkfreq: u32, v: u32) -> u32
    requires { (t ≤ 16777216) × (minkfreq ≤ 16777216) }
    ensures { result ≡ cond (leb minkfreq t) v 0 }
{
    if (minkfreq as i32) <= (t as i32) {
        v
    } else {
        0
    }
}

// One more pair of entries.
fn add_pair(s: Sums, x: i32, y: i32, minkfreq: u32) -> Sums
    requires { Addable s x y minkfreq }
    ensures { result ≡ pair_on minkfreq x y s }
{
    let both = magnitude(x) + magnitude(y);
    let apart = magnitude(x - y);
    let d = s.d + kept(both, minkfreq, both);
    let n = s.n + kept(both, minkfreq, apart);
    Sums { d, n }
}

// The sums go on over two rows within their limit, so that nothing wraps and no entry is looked at twice.
fn sum_on(start: Sums, a: &[i32], b: &[i32], minkfreq: u32) -> Sums
    requires { Passable start a.now b.now minkfreq }
    ensures { result ≡ sums_on minkfreq a.now b.now start }
{
    let mut s = start;
    for (i, x) in a.iter().enumerate() {
        s = add_pair(s, *x, b[i], minkfreq);
    }
    s
}

// Where the block of at most 128 entries that begins at i ends.
pub(crate) fn block_end(i: usize, width: usize) -> usize
    requires { i < width }
    ensures { (i < result) × (result ≤ width) × (result ≤ i + 128) }
{
    if width - i < 128 { width } else { i + 128 }
}

// The sums go on over one block of a chain's row and of a list's, which is summed here.
pub(crate) fn sum_block(
    start: Sums,
    table: &[i32],
    rows: &[u32],
    chain_row: &[i32],
    from: usize,
    to: usize,
    minkfreq: u32,
) -> Sums
    requires { Blockable start table.now rows.now chain_row.now from to minkfreq }
    ensures { let list = features_of (length chain_row.now) table.now rows.now in
        result ≡ sums_on minkfreq (take (to - from) (drop from chain_row.now)) (take (to - from) (drop from list)) start }
{
    let mut block = [0i32; 128];
    let len = to - from;
    add_parts(table, rows, chain_row.len(), from, &mut block[..len]);
    sum_on(start, &chain_row[from..to], &block[..len], minkfreq)
}
