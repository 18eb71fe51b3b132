// A text's lines, front to back, and the faults of its numbers behind those of its lines.
ghost use Rattle.std.specs.Prelude.{◌≡◌, ◌≤◌, length, take};
ghost use Rattle.params.specs.Numbers.{first_of, bound_rules};
ghost use Rattle.metrics.specs.Placed.{placed};
ghost use Rattle.metrics.specs.Refusals.{told};
ghost use Rattle.bed.specs.Steps.{Scanned, Checked};

use crate::lines::line_of;
use crate::parts::{first, line_len};
use metrics::refusals::Refusal;
use params::checks::count_fault;

// The rows of a text, gathered at the front of both buffers: how many there are.
fn scan(text: &[u8], s: &mut [u64], e: &mut [u64]) -> Result<usize, Refusal>
    requires { (length s.old ≡ 64) × (length e.old ≡ 64) }
    ensures { Scanned text.now s.new e.new result }
{
    let mut at = 0;
    let mut rows = 0;
    // `at` goes on by lines of differing length.
    while at < text.len() {
        if rows >= 64 {
            return Err(Refusal::TooManyLines);
        }
        let rest = &text[at..];
        let n = line_len(rest);
        let line = &rest[..n];
        let Some(bounds) = line_of(line) else {
            return Err(Refusal::BadLine);
        };
        if first(line, b'\t') != first(text, b'\t') {
            return Err(Refusal::SecondName);
        }
        s[rows] = bounds.start;
        e[rows] = bounds.end;
        rows += 1;
        at += n;
    }
    Ok(rows)
}

// 7 and 8 of the first n rows, by the check of a table.
fn bounds_fault(s: &[u64], e: &[u64], n: usize) -> Result<(), Refusal>
    requires { (1 ≤ n) × ((n ≤ 64) × ((length s.now ≡ 64) × (length e.now ≡ 64))) }
    ensures { told result ≡ first_of (bound_rules (take n s.now) (take n e.now)) }
{
    count_fault(&s[..n], &e[..n], 0)
}

// The same with 7 and 8 behind the faults of the text.
pub(crate) fn check(text: &[u8], s: &mut [u64], e: &mut [u64]) -> Result<usize, Refusal>
    requires { (length s.old ≡ 64) × (length e.old ≡ 64) }
    ensures { Checked text.now s.new e.new result }
{
    let rows = scan(text, s, e)?;
    if rows == 0 {
        return Ok(0);
    }
    bounds_fault(s, e, rows)?;
    Ok(rows)
}

// The first n numbers to the front of a buffer.
pub(crate) fn lay(from: &[u64], n: usize, to: &mut [u64])
    requires { (n ≤ length from.now) × (n ≤ length to.old) }
    ensures { to.new ≡ placed to.old (take n from.now) }
{
    to[..n].copy_from_slice(&from[..n]);
}
