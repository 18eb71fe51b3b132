// The graph of a table of variants (vargraph.rs): an edge is a test of two rows, asked at most once a search and once a count for each pair.
ghost use Rattle.std.specs.Prelude.{◌≡◌, false, ◌&&◌, [], ◌-◌, ◌*◌, ◌<◌, ◌≤◌, min, length, get_or};
ghost use Rattle.paths.specs.Count.{onward, rows_from};
ghost use Rattle.params.specs.Numbers.{falling_start};
ghost use Rattle.kplib.specs.Graph.{node_of, row_of, edge, chains_of};
ghost use Rattle.kplib.specs.GraphWalk.{flag_of, Together, SetFrom, RowLaid, Flagged, span_of, Kept, Counting, Narrowed};
ghost use Rattle.kplib.specs.Promises.{CountChainsPromise};

use metrics::overlaps;
use metrics::refusals::Refusal;
use params::checks::count_fault;

// A variant's row in the table, from 0.
#[derive(Clone, Copy)]
pub(crate) struct Row(pub u32);

// A node of the graph: 0 is the source, then the rows, and the sink.
#[derive(Clone, Copy)]
pub(crate) struct Node(pub u32);

pub(crate) fn node_of(row: Row) -> Node
    requires { row.0 < 4294967295 }
    ensures { result.0 ≡ node_of row.0 }
{
    Node(row.0 + 1)
}

pub(crate) fn row_of(node: Node) -> Row
    requires { 0 < node.0 }
    ensures { result.0 ≡ row_of node.0 }
{
    Row(node.0 - 1)
}

// The flags of row r and each later row, which are set before. Starts do not fall, so from the first row on that starts at row r's end or behind it none overlaps row r.
fn lay_row(starts: &[u64], ends: &[u64], r: usize, together: &mut [bool; 4096])
    requires { (length ends.now ≡ length starts.now) × (length starts.now ≤ 64) × (r < length starts.now)
        × (falling_start starts.now ≡ false) × SetFrom (64 * r) together.old }
    ensures { RowLaid (edge starts.now ends.now) (length starts.now) r together.old together.new }
{
    for s in r + 1..starts.len() {
        if ends[r] <= starts[s] {
            return;
        }
        together[64 * r + s] = !overlaps(starts[r], ends[r], starts[s], ends[s]);
    }
}

// Which pairs of rows may stand together: the flag of rows r and s, the later last, at 64 r + s. All flags are set before.
pub(crate) fn lay_pairs(starts: &[u64], ends: &[u64], together: &mut [bool; 4096])
    requires { (length ends.now ≡ length starts.now) × (length starts.now ≤ 64) × (falling_start starts.now ≡ false) × SetFrom 0 together.old }
    ensures { Together (edge starts.now ends.now) (length starts.now) together.new }
{
    for r in 0..starts.len() {
        lay_row(starts, ends, r, together);
    }
}

// The same in memory of its own.
fn pairs_together(starts: &[u64], ends: &[u64]) -> [bool; 4096]
    requires { (length ends.now ≡ length starts.now) × (length starts.now ≤ 64) × (falling_start starts.now ≡ false) }
    ensures { Together (edge starts.now ends.now) (length starts.now) result }
{
    let mut together = [true; 4096];
    lay_pairs(starts, ends, &mut together);
    together
}

// Of the rows that may follow a chain, those that may follow it with this row too.
pub(crate) fn stand_with(together: &[bool; 4096], row: Row, may: &mut [bool; 64])
    requires { (row.0 < 64) × (length may.old ≡ 64) }
    ensures { let old = may.old in
        Flagged (λ s. get_or old s false && flag_of together.now row.0 s) may.new }
{
    let at = 64 * (row.0 as usize);
    for s in 0..64 {
        may[s] &= together[at + s];
    }
}

// Puts those of the rows from place `from` to place `to` that may stand with a row behind them. Says where they end.
fn narrow(together: &[bool; 4096], row: Row, rows: &mut [u8; 4160], from: usize, to: usize) -> usize
    requires { (row.0 < 64) × Counting rows.old from to }
    ensures { Narrowed (flag_of together.now row.0) from to rows.old rows.new result }
{
    let flags = 64 * (row.0 as usize);
    let mut end = to;
    for i in from..to {
        let s = rows[i];
        rows[end] = s;
        if together[flags + (s as usize)] {
            end += 1;
        }
    }
    end
}

// What is left of the cap once the chains are counted that are some of the rows from place `from` to place `to`. A row that is taken
// leaves those behind it that may stand with it: they are put behind the others, so that each of them is asked of one row only.
fn count_rows(
    together: &[bool; 4096],
    rows: &mut [u8; 4160],
    from: usize,
    to: usize,
    cap: u32,
) -> u32
    requires { Counting rows.old from to }
    ensures { let joins = flag_of together.now in
        let old = rows.old in
        (result ≡ cap - onward joins [] (span_of old (to - from) from)) × Kept to old rows.new }
{
    if cap == 0 {
        return 0;
    }
    if from == to {
        return cap;
    }
    let row = Row(rows[from] as u32);
    let end = narrow(together, row, rows, from + 1, to);
    let left = count_rows(together, rows, to, end, cap - 1);
    count_rows(together, rows, from + 1, to, left)
}

// The first v rows, in their order.
fn first_rows(v: usize) -> [u8; 4160]
    requires { v ≤ 64 }
    ensures { Counting result 0 v × (span_of result v 0 ≡ rows_from v 0) }
{
    let mut rows = [0u8; 4160];
    for r in 0..v {
        rows[r] = r as u8;
    }
    rows
}

// The smaller of N and cap.
fn count_capped(starts: &[u64], ends: &[u64], full: bool, cap: u32) -> u32
    requires { (length ends.now ≡ length starts.now) × (length starts.now ≤ 64) × (cap ≤ 4096) × (falling_start starts.now ≡ false) }
    ensures { result ≡ min (chains_of starts.now ends.now full) cap }
{
    if cap == 0 {
        return 0;
    }
    if !full {
        return 1;
    }
    let together = pairs_together(starts, ends);
    let mut rows = first_rows(starts.len());
    let others = cap - 1;
    others - count_rows(&together, &mut rows, 0, starts.len(), others) + 1
}

// The smaller of the number of chains and cap. It takes no longer than the cap allows, however many chains there are.
pub fn count_chains(starts: &[u64], ends: &[u64], full: bool, cap: u32) -> Result<u32, Refusal>
    ensures { CountChainsPromise starts.now ends.now full cap result }
{
    count_fault(starts, ends, cap)?;
    Ok(count_capped(starts, ends, full, cap))
}
