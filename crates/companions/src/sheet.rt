// The sheet: one row's flags laid or cleared, and the whole worked out afresh.
ghost use Rattle.std.specs.Prelude.{◌≡◌, ◌+◌, ◌<◌, ◌≤◌};
ghost use Rattle.companions.specs.Companions.{sheet_of};

use metrics::overlaps;

// One row more: each earlier row is looked at once.
pub(crate) fn lay_last(starts: &[u64; 64], ends: &[u64; 64], last: usize, sheet: &mut [bool; 4096])
    requires { (last < 64) × (sheet.old ≡ sheet_of starts.now ends.now last) }
    ensures { sheet.new ≡ sheet_of starts.now ends.now (last + 1) }
{
    let start = starts[last];
    let end = ends[last];
    for r in 0..last {
        sheet[64 * r + last] = !overlaps(starts[r], ends[r], start, end);
    }
}

// One row less. Its own flags are no already, since no row is later.
pub(crate) fn clear_last(
    starts: &[u64; 64],
    ends: &[u64; 64],
    last: usize,
    sheet: &mut [bool; 4096],
)
    requires { (last < 64) × (sheet.old ≡ sheet_of starts.now ends.now (last + 1)) }
    ensures { sheet.new ≡ sheet_of starts.now ends.now last }
{
    for r in 0..last {
        sheet[64 * r + last] = false;
    }
}

// The sheet of the first n rows: as if they were added one by one.
pub(crate) fn fresh(starts: &[u64; 64], ends: &[u64; 64], n: usize) -> [bool; 4096]
    requires { n ≤ 64 }
    ensures { result ≡ sheet_of starts.now ends.now n }
{
    let mut sheet = [false; 4096];
    for last in 0..n {
        lay_last(starts, ends, last, &mut sheet);
    }
    sheet
}
