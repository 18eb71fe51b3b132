// Whose reads an answer's haplotype came from (document 02, P12): its data comes back with every answer, unchecked and unchanged. No search looks at it.
ghost use Rattle.dive.specs.Promises.{ApplyWithMetaPromise, ApplyHaplotypesWithMetaPromise};

use crate::{apply_numbered, apply_numbered_haplotypes};
use kplib::traverse::Answer;
use meta::HaplotypeMeta;
use metrics::refusals::Refusal;
use params::{Parts, Settings, Table};

// An answer, a refused one too, and the haplotype's own data.
#[derive(Clone, Copy)]
pub struct Told {
    pub answer: Answer,
    pub meta: HaplotypeMeta,
}

// What several haplotypes came to, and the data of each: entry i is haplotype i's.
#[derive(Clone, Copy)]
pub struct ToldSeveral {
    pub found: Result<(), Refusal>,
    pub metas: [HaplotypeMeta; 16],
}

// `apply_numbered` for a haplotype that carries data.
pub fn apply_with_meta(
    s: Settings,
    table: &Table,
    numbers: &[u32],
    parts: &Parts,
    meta: HaplotypeMeta,
    links: &mut [u32],
    keys: &mut [u64],
    rows: &mut [u32],
    records: &mut [u32],
) -> Told
    ensures { ApplyWithMetaPromise s table.now numbers.now parts.now meta links.old keys.old rows.old records.old
        links.new keys.new rows.new records.new result }
{
    let answer = apply_numbered(s, table, numbers, parts, links, keys, rows, records);
    Told { answer, meta }
}

// `apply_numbered_haplotypes` for haplotypes that carry data.
pub fn apply_haplotypes_with_meta(
    s: Settings,
    table: &Table,
    numbers: &[u32],
    part_ends: &[u64],
    feature_ends: &[u64],
    parts: &Parts,
    metas: [HaplotypeMeta; 16],
    links: &mut [u32],
    keys: &mut [u64],
    rows: &mut [u32],
    records: &mut [u32],
    reports: &mut [u32],
) -> ToldSeveral
    ensures { ApplyHaplotypesWithMetaPromise s table.now numbers.now part_ends.now feature_ends.now parts.now metas
        links.old keys.old rows.old records.old reports.old
        links.new keys.new rows.new records.new reports.new result }
{
    let found = apply_numbered_haplotypes(
        s,
        table,
        numbers,
        part_ends,
        feature_ends,
        parts,
        links,
        keys,
        rows,
        records,
        reports,
    );
    ToldSeveral { found, metas }
}
