// BED in and out (document 02, P4): a table of up to 64 rows read from a text, and chosen rows of a table written as one.
#![tactic(auto)]

mod lines;
mod parts;
mod rows;
mod table;

ghost use Rattle.bed.specs.Promises.{ReadBedPromise, WriteBedPromise};

use crate::lines::good_name;
use crate::parts::first;
use crate::rows::{fits, missing_row, put_rows};
use crate::table::{check, lay};
use metrics::refusals::Refusal;
use text::pieces::put_bytes;

// How many rows a table has and how long its name is.
#[derive(Clone, Copy)]
pub struct Counts {
    pub rows: u32,
    pub width: u32,
}

// The table's rows to the front of `starts` and `ends`, and its name to that of `name`. They are gathered in memory of its own first, since a refusal changes nothing.
pub fn read_bed(
    text: &[u8],
    starts: &mut [u64],
    ends: &mut [u64],
    name: &mut [u8; 32],
) -> Result<Counts, Refusal>
    ensures { ReadBedPromise text.now starts.old ends.old name.old starts.new ends.new name.new result }
{
    if starts.len() < 64 || ends.len() < 64 {
        return Err(Refusal::BadLengths);
    }
    let mut s = [0u64; 64];
    let mut e = [0u64; 64];
    let rows = check(text, &mut s, &mut e)?;
    lay(&s, rows, starts);
    lay(&e, rows, ends);
    let width = put_bytes(name, 0, first(text, b'\t'));
    Ok(Counts {
        rows: rows as u32,
        width: width as u32,
    })
}

// The chosen rows' lines to the front of `text`, in the order of `rows`, and how many bytes they have.
pub fn write_bed(
    name: &[u8],
    starts: &[u64],
    ends: &[u64],
    rows: &[u32],
    text: &mut [u8],
) -> Result<usize, Refusal>
    ensures { WriteBedPromise name.now starts.now ends.now rows.now text.old text.new result }
{
    if ends.len() != starts.len() {
        return Err(Refusal::BadLengths);
    }
    if rows.is_empty() {
        return Ok(0);
    }
    if !good_name(name) {
        return Err(Refusal::BadLine);
    }
    if missing_row(starts.len(), rows) {
        return Err(Refusal::MissingRow);
    }
    if !fits(name, starts, ends, rows, text.len()) {
        return Err(Refusal::LittleTextRoom);
    }
    Ok(put_rows(text, name, starts, ends, rows))
}
