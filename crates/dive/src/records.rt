// The record numbers of an answer's rows.
ghost use Rattle.std.specs.Prelude.{◌≡◌, ◌≤◌, length, take};
ghost use Rattle.metrics.specs.Placed.{placed};
ghost use Rattle.kplib.specs.Haplotypes.{laid};
ghost use Rattle.dive.specs.Numbered.{records_at};
ghost use Rattle.dive.specs.RecordSteps.{records_in, Stretched};

// Writes the record numbers of the first n rows to the front of the buffer. A row past the end has 0, so that nothing is asked of the rows; an answer's rows never lie there.
pub(crate) fn put_records(numbers: &[u32], rows: &[u32], n: usize, records: &mut [u32])
    requires { (n ≤ length rows.now) × (n ≤ length records.old) }
    ensures { records.new ≡ placed records.old (records_at numbers.now (take n rows.now)) }
{
    for (i, row) in rows[..n].iter().enumerate() {
        records[i] = numbers.get(*row as usize).copied().unwrap_or(0);
    }
}

// The same for each of n haplotypes, in its own stretch of V: its report counts its rows.
pub(crate) fn put_all_records(
    v: usize,
    n: usize,
    numbers: &[u32],
    rows: &[u32],
    reports: &[u32],
    records: &mut [u32],
)
    requires { Stretched v n rows.now reports.now records.old }
    ensures { records.new ≡ laid v (records_in v numbers.now rows.now reports.now) n records.old }
{
    for i in 0..n {
        let at = i * v;
        let count = reports[i * 8 + 1] as usize;
        put_records(numbers, &rows[at..at + v], count, &mut records[at..at + v]);
    }
}
