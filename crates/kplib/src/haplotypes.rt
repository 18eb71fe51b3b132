// Several haplotypes over one table (document 02, P1): the table is checked once, then each haplotype is answered as by itself.
ghost use Rattle.std.specs.Prelude.{◌≡◌, ◌<◌, ◌≤◌, length, get_or};
ghost use Rattle.params.specs.Several.{begin_of, stretch_of};
ghost use Rattle.kplib.specs.Promises.{ApplyHaplotypesPromise};

use crate::report::put_words;
use crate::traverse::answer_haplotype;
use metrics::refusals::Refusal;
use params::checks::queue_room;
use params::several::several_fault;
use params::{Parts, Settings, Table};

// Where stretch i begins: at the end of the one before it, the first at 0.
fn begin_of(ends: &[u64], i: usize) -> usize
    requires { i ≤ length ends.now }
    ensures { result ≡ begin_of ends.now i }
{
    if i == 0 { 0 } else { ends[i - 1] as usize }
}

// Stretch i of what lies one behind the other.
fn stretch_of<'a>(ends: &[u64], entries: &'a [i32], i: usize) -> &'a [i32]
    requires { (i < length ends.now) × (begin_of ends.now i ≤ get_or ends.now i 0) × (get_or ends.now i 0 ≤ length entries.now) }
    ensures { result.now ≡ stretch_of ends.now entries.now i }
{
    &entries[begin_of(ends, i)..ends[i] as usize]
}

// The answers of all haplotypes: each one's rows in its own V of `rows`, its refusal and answer in its own eight of `reports`. Stretch i of the parts ends at
// the i-th of `part_ends`, that of their features at the i-th of `feature_ends`. The queue's room is used again for each.
pub fn apply_haplotypes(
    s: Settings,
    table: &Table,
    part_ends: &[u64],
    feature_ends: &[u64],
    parts: &Parts,
    links: &mut [u32],
    keys: &mut [u64],
    rows: &mut [u32],
    reports: &mut [u32],
) -> Result<(), Refusal>
    ensures { ApplyHaplotypesPromise s table.now part_ends.now feature_ends.now parts.now links.old keys.old rows.old reports.old
        links.new keys.new rows.new reports.new result }
{
    let room = queue_room(links.len(), keys.len());
    several_fault(
        s,
        table,
        part_ends,
        feature_ends,
        parts,
        room,
        rows.len(),
        reports.len(),
    )?;
    let v = table.starts.len();
    for i in 0..part_ends.len() {
        let own = Parts {
            sizes: stretch_of(part_ends, parts.sizes, i),
            features: stretch_of(feature_ends, parts.features, i),
        };
        let at = i * v;
        let word = i * 8;
        let answer = answer_haplotype(s, table, &own, links, keys, &mut rows[at..at + v]);
        put_words(answer, &mut reports[word..word + 8]);
    }
    Ok(())
}
