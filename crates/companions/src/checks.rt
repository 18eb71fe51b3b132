// What a table and its sheet are refused by, before all others.
ghost use Rattle.std.specs.Prelude.{◌≡◌, length};
ghost use Rattle.metrics.specs.Refusals.{told};
ghost use Rattle.companions.specs.Companions.{lent_of, table_fault, not_its_sheet};

use crate::sheet::fresh;
use metrics::refusals::Refusal;
use params::checks::count_fault;

// 5, 7 and 8 of the first n rows.
fn table_fault(starts: &[u64], ends: &[u64], n: usize) -> Result<(), Refusal>
    requires { (length starts.now ≡ 64) × (length ends.now ≡ 64) }
    ensures { told result ≡ table_fault n starts.now ends.now }
{
    if n > 64 {
        return Err(Refusal::TooMany);
    }
    if n == 0 {
        return Ok(());
    }
    count_fault(&starts[..n], &ends[..n], 0)
}

// Whether 49 is given. All 4,096 flags are compared with a sheet worked out afresh.
pub(crate) fn not_its_sheet(
    starts: &[u64; 64],
    ends: &[u64; 64],
    sheet: &[bool; 4096],
    rows: u32,
) -> bool
    ensures { result ≡ not_its_sheet (lent_of starts.now ends.now sheet.now rows) }
{
    let n = rows as usize;
    match table_fault(starts, ends, n) {
        Ok(()) => *sheet != fresh(starts, ends, n),
        Err(_) => true,
    }
}
