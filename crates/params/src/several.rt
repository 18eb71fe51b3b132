// The refusals of a call of several haplotypes over one table (document 02, P1).
ghost use Rattle.std.specs.Prelude.{◌≡◌, length};
ghost use Rattle.metrics.specs.Refusals.{told};
ghost use Rattle.params.specs.Held.{table_held, parts_held};
ghost use Rattle.params.specs.Numbers.{call_of, first_fault};
ghost use Rattle.params.specs.Several.{ends_disagree, stretches_disagree, shared_parts};
ghost use Rattle.params.specs.SeveralChecks.{stretch_fault};
ghost use Rattle.params.specs.Promises.{SeveralFaultPromise};

use crate::checks::call_fault;
use crate::order::first_in_table;
use crate::{Parts, Settings, Table};
use metrics::refusals::Refusal;

// Whether the ends fall, or the last is not n.
fn bad_ends(ends: &[u64], n: usize) -> bool
    ensures { result ≡ ends_disagree ends.now n }
{
    let mut before: u64 = 0;
    for end in ends {
        if *end < before {
            return true;
        }
        before = *end;
    }
    before != n as u64
}

// The 6 of the ends of both stretches, of m part sizes and f features.
fn bad_stretches(part_ends: &[u64], feature_ends: &[u64], m: usize, f: usize) -> bool
    ensures { result ≡ stretches_disagree part_ends.now feature_ends.now m f }
{
    feature_ends.len() != part_ends.len() || bad_ends(part_ends, m) || bad_ends(feature_ends, f)
}

// 27, and 6 and 12 of the haplotypes' stretches. More than 64 variants are left to the 5 that comes before.
#[tactic(auto, unfolding(crate::specs::SeveralChecks::stretch_fault))]
fn stretch_fault(
    v: usize,
    part_ends: &[u64],
    feature_ends: &[u64],
    parts: &Parts,
    answer_room: usize,
    report_room: usize,
) -> Result<(), Refusal>
    ensures { let p = parts_held parts.now in
        told result ≡ stretch_fault v part_ends.now feature_ends.now (length p.sizes) (length p.features) answer_room report_room }
{
    let n = part_ends.len();
    if n < 1 || n > 16 {
        return Err(Refusal::TooManyHaplotypes);
    }
    if v > 64 {
        return Ok(());
    }
    if bad_stretches(
        part_ends,
        feature_ends,
        parts.sizes.len(),
        parts.features.len(),
    ) {
        return Err(Refusal::BadLengths);
    }
    if answer_room < v * n || report_room < 8 * n {
        return Err(Refusal::AnswerRoom);
    }
    Ok(())
}

// What is asked of the call that all haplotypes share: with one its parts too, with several none.
fn shared_fault(
    s: Settings,
    table: &Table,
    parts: &Parts,
    one: bool,
    queue_room: usize,
) -> Result<(), Refusal>
    ensures { let t = table_held table.now in
        told result ≡ first_fault (call_of s t (shared_parts one (parts_held parts.now)) queue_room (length t.starts)) }
{
    if one {
        return call_fault(s, table, parts, queue_room, table.starts.len());
    }
    let none = Parts {
        sizes: &parts.sizes[..0],
        features: &parts.features[..0],
    };
    call_fault(s, table, &none, queue_room, table.starts.len())
}

// The first refusal of the whole call.
pub fn several_fault(
    s: Settings,
    table: &Table,
    part_ends: &[u64],
    feature_ends: &[u64],
    parts: &Parts,
    queue_room: usize,
    answer_room: usize,
    report_room: usize,
) -> Result<(), Refusal>
    ensures { SeveralFaultPromise s table.now part_ends.now feature_ends.now parts.now
        queue_room answer_room report_room result }
{
    let v = table.starts.len();
    let own = stretch_fault(v, part_ends, feature_ends, parts, answer_room, report_room);
    let shared = shared_fault(s, table, parts, part_ends.len() == 1, queue_room);
    first_in_table(shared, own)
}
