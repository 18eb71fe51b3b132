// The feature rows of a job's sequences, counted one behind the other into one table.
ghost use Rattle.std.specs.Prelude.{◌≡◌, ◌-◌, take, drop};
ghost use Rattle.metrics.specs.Letters.{counts_by};
ghost use Rattle.desk.specs.Rows.{RowFits, RowsFit, RowsCounted, row_stored};

use metrics::kmer::seq_to_kmer;

// One row, of the letters from `at` to `end`, into the entries from `from` to `to`. `reading` is the setting `letters`.
fn count_row(
    reading: u8,
    k: u8,
    negative: bool,
    letters: &[u8],
    at: usize,
    end: usize,
    table: &mut [i32],
    from: usize,
    to: usize,
)
    requires { RowFits reading k at end from to letters.now table.old }
    ensures { table.new ≡ row_stored from to table.old (counts_by reading k negative (take (end - at) (drop at letters.now))) }
{
    // Never refused: k, the letters and the row are what it asks.
    let _ = seq_to_kmer(
        &letters[at..end],
        k,
        negative,
        reading,
        &mut table[from..to],
    );
}

// A row for each count, of the letters from `first` on. Returns the position behind the last letter.
pub(crate) fn count_rows(
    reading: u8,
    k: u8,
    width: usize,
    negatives: &[bool],
    counts: &[u32],
    letters: &[u8],
    first: usize,
    table: &mut [i32],
) -> usize
    requires { RowsFit reading k width negatives.now counts.now letters.now first table.old }
    ensures { RowsCounted reading k width negatives.now counts.now letters.now first result table.old table.new }
{
    let mut at = first;
    let mut from = 0;
    for (row, count) in counts.iter().enumerate() {
        let end = at + *count as usize;
        count_row(
            reading,
            k,
            negatives[row],
            letters,
            at,
            end,
            table,
            from,
            from + width,
        );
        at = end;
        from += width;
    }
    at
}
