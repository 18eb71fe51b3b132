// A companions sheet (document 02, P8): beside a table of up to 64 rows, for every row the later rows that it does not overlap.
// Table and sheet are lent with each call, and a call is refused by 49 where the one is not the other's.
#![tactic(auto)]

mod checks;
mod sheet;

ghost use Rattle.std.specs.Prelude.{◌≡◌, ◌<◌};
ghost use Rattle.metrics.specs.Refusals.{told};
ghost use Rattle.companions.specs.Companions.{lent_of};
ghost use Rattle.companions.specs.Changes.{add_fault};
ghost use Rattle.companions.specs.Questions.{later_of};
ghost use Rattle.companions.specs.Promises.{AddPromise, RemovePromise, TogetherPromise, CountPromise};

use crate::checks::not_its_sheet;
use crate::sheet::{clear_last, lay_last};
use metrics::refusals::Refusal;

#[tactic(auto, unfolding(crate::specs::Changes::add_fault))]
fn add_fault(
    starts: &[u64; 64],
    ends: &[u64; 64],
    sheet: &[bool; 4096],
    rows: u32,
    start: u64,
    end: u64,
) -> Result<(), Refusal>
    ensures { told result ≡ add_fault (lent_of starts.now ends.now sheet.now rows) start end }
{
    if not_its_sheet(starts, ends, sheet, rows) {
        return Err(Refusal::NotItsSheet);
    }
    let n = rows as usize;
    if n >= 64 {
        return Err(Refusal::TooMany);
    }
    if start > end {
        return Err(Refusal::StartAfterEnd);
    }
    if n > 0 && start < starts[n - 1] {
        return Err(Refusal::FallingStart);
    }
    Ok(())
}

// A row at the end.
pub fn add(
    starts: &mut [u64; 64],
    ends: &mut [u64; 64],
    sheet: &mut [bool; 4096],
    rows: &mut u32,
    start: u64,
    end: u64,
) -> Result<(), Refusal>
    ensures { AddPromise starts.old ends.old sheet.old rows.old start end
        starts.new ends.new sheet.new rows.new result }
{
    let n = *rows;
    add_fault(starts, ends, sheet, n, start, end)?;
    let last = n as usize;
    starts[last] = start;
    ends[last] = end;
    lay_last(starts, ends, last, sheet);
    *rows = n + 1;
    Ok(())
}

// The last row taken away: starts and ends stay as they lie.
pub fn remove(
    starts: &[u64; 64],
    ends: &[u64; 64],
    sheet: &mut [bool; 4096],
    rows: &mut u32,
) -> Result<(), Refusal>
    ensures { RemovePromise starts.now ends.now sheet.old rows.old sheet.new rows.new result }
{
    let n = *rows;
    if not_its_sheet(starts, ends, sheet, n) {
        return Err(Refusal::NotItsSheet);
    }
    if n == 0 {
        return Err(Refusal::MissingRow);
    }
    let last = n - 1;
    clear_last(starts, ends, last as usize, sheet);
    *rows = last;
    Ok(())
}

// May these two rows stand together, in either order? A row with itself is a no.
#[tactic(auto, using(crate::proofs::QuestionLaws::rows_few), unfolding(crate::specs::Questions::together_of, crate::specs::Questions::pair_of, crate::specs::Questions::pair_fault))]
pub fn together(
    starts: &[u64; 64],
    ends: &[u64; 64],
    sheet: &[bool; 4096],
    rows: u32,
    a: u32,
    b: u32,
) -> Result<bool, Refusal>
    ensures { TogetherPromise starts.now ends.now sheet.now rows a b result }
{
    if not_its_sheet(starts, ends, sheet, rows) {
        return Err(Refusal::NotItsSheet);
    }
    if a >= rows || b >= rows {
        return Err(Refusal::MissingRow);
    }
    let i = a as usize;
    let j = b as usize;
    Ok(sheet[64 * i + j] | sheet[64 * j + i])
}

// The flags of one row, counted.
fn count_flags(sheet: &[bool; 4096], row: usize) -> u32
    requires { row < 64 }
    ensures { result ≡ later_of sheet.now row }
{
    let at = 64 * row;
    sheet[at..at + 64].iter().filter(|flag| **flag).count() as u32
}

// How many later companions has a row?
#[tactic(auto, using(crate::proofs::QuestionLaws::rows_few), unfolding(crate::specs::Questions::later_in, crate::specs::Questions::later_fault))]
pub fn count(
    starts: &[u64; 64],
    ends: &[u64; 64],
    sheet: &[bool; 4096],
    rows: u32,
    row: u32,
) -> Result<u32, Refusal>
    ensures { CountPromise starts.now ends.now sheet.now rows row result }
{
    if not_its_sheet(starts, ends, sheet, rows) {
        return Err(Refusal::NotItsSheet);
    }
    if row >= rows {
        return Err(Refusal::MissingRow);
    }
    Ok(count_flags(sheet, row as usize))
}
