// What stands above the search: the record numbers of a table's variants (document 02, P3), for one haplotype and for several (P1), and the data that a
// haplotype carries (P12).
#![tactic(auto)]

mod numbers;
mod records;
pub mod told;

ghost use Rattle.std.specs.Prelude.{◌≡◌};
ghost use Rattle.kplib.specs.Answer.{answer_with, none_found};
ghost use Rattle.dive.specs.Promises.{NumberedFaultPromise, ApplyNumberedPromise, ApplyNumberedHaplotypesPromise};

use crate::numbers::number_fault;
use crate::records::{put_all_records, put_records};
use kplib::haplotypes::apply_haplotypes;
use kplib::pathscore::Target;
use kplib::traverse::{Answer, apply_haplotype};
use metrics::refusals::{Refusal, told};
use params::checks::{call_fault, queue_room};
use params::order::first_in_table;
use params::several::several_fault;
use params::{Parts, Settings, Table};

// The first refusal of a call whose variants carry record numbers.
pub fn numbered_fault(
    s: Settings,
    table: &Table,
    numbers: &[u32],
    parts: &Parts,
    queue_room: usize,
    answer_room: usize,
    record_room: usize,
) -> Result<(), Refusal>
    ensures { NumberedFaultPromise s table.now numbers.now parts.now queue_room answer_room record_room result }
{
    let own = number_fault(table.starts.len(), 1, numbers, record_room);
    let other = call_fault(s, table, parts, queue_room, answer_room);
    first_in_table(other, own)
}

// A refusal: no rows, no part list, three zeros.
fn refused(refusal: u32) -> Answer
    ensures { result ≡ answer_with refusal none_found }
{
    Answer {
        refusal,
        rows: 0,
        target: Target::Nothing,
        score: 0.0,
        sizesim: 0.0,
        seqsim: 0.0,
        scored: 0,
        complete: false,
    }
}

// `apply_haplotype` over variants that carry record numbers: the numbers of the answer's rows stand in `records`, in the rows' order.
// What is asked of the numbers is asked first, because it is little; where it refuses, an earlier refusal of the call goes before it.
pub fn apply_numbered(
    s: Settings,
    table: &Table,
    numbers: &[u32],
    parts: &Parts,
    links: &mut [u32],
    keys: &mut [u64],
    rows: &mut [u32],
    records: &mut [u32],
) -> Answer
    ensures { ApplyNumberedPromise s table.now numbers.now parts.now links.old keys.old rows.old records.old
        links.new keys.new rows.new records.new result }
{
    if let Err(refusal) = number_fault(table.starts.len(), 1, numbers, records.len()) {
        let room = queue_room(links.len(), keys.len());
        let other = call_fault(s, table, parts, room, rows.len());
        return refused(told(first_in_table(other, Err(refusal))));
    }
    let answer = apply_haplotype(s, table, parts, links, keys, rows);
    put_records(numbers, rows, answer.rows as usize, records);
    answer
}

// `apply_haplotypes` over variants that carry record numbers: those of each haplotype's rows stand in its own V of `records`.
pub fn apply_numbered_haplotypes(
    s: Settings,
    table: &Table,
    numbers: &[u32],
    part_ends: &[u64],
    feature_ends: &[u64],
    parts: &Parts,
    links: &mut [u32],
    keys: &mut [u64],
    rows: &mut [u32],
    records: &mut [u32],
    reports: &mut [u32],
) -> Result<(), Refusal>
    ensures { ApplyNumberedHaplotypesPromise s table.now numbers.now part_ends.now feature_ends.now parts.now
        links.old keys.old rows.old records.old reports.old
        links.new keys.new rows.new records.new reports.new result }
{
    let v = table.starts.len();
    let n = part_ends.len();
    if let Err(refusal) = number_fault(v, n, numbers, records.len()) {
        let room = queue_room(links.len(), keys.len());
        let other = several_fault(
            s,
            table,
            part_ends,
            feature_ends,
            parts,
            room,
            rows.len(),
            reports.len(),
        );
        return first_in_table(other, Err(refusal));
    }
    apply_haplotypes(
        s,
        table,
        part_ends,
        feature_ends,
        parts,
        links,
        keys,
        rows,
        reports,
    )?;
    put_all_records(v, n, numbers, rows, reports, records);
    Ok(())
}
