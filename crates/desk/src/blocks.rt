// The text of a job's haplotypes: the lines of one, or a block of lines for each of several, one behind the other.
ghost use Rattle.std.specs.Prelude.{◌≡◌, length};
ghost use Rattle.metrics.specs.Refusals.{told};
ghost use Rattle.params.specs.Held.{table_held, parts_held};
ghost use Rattle.desk.specs.Desk.{haplotype_text, whole_fault, blocks_text, haplotypes_text};
ghost use Rattle.desk.specs.Memory.{Printed, most_of_one, most_of_block, most_of_all, BlocksFit, block_text, ends_of, stretches};

use crate::room::{key_room, link_room};
use crate::stretches::stretch_end;
use dive::{apply_numbered, numbered_fault};
use metrics::refusals::Refusal;
use params::{Parts, Settings, Table};
use text::{put_answer, put_hap, put_refused};

// The answer to one haplotype's call.
pub(crate) fn put_search(
    s: Settings,
    table: &Table,
    numbers: &[u32],
    parts: &Parts,
    out: &mut [u8],
    at: usize,
) -> usize
    ensures { Printed most_of_one out.old at (haplotype_text s
        (table_held table.now) numbers.now (parts_held parts.now)) out.new result }
{
    let mut links = link_room();
    let mut keys = key_room();
    let mut rows = [0u32; 16];
    let mut records = [0u32; 16];
    let a = apply_numbered(
        s,
        table,
        numbers,
        parts,
        &mut links,
        &mut keys,
        &mut rows,
        &mut records,
    );
    put_answer(out, at, &rows, &records, a)
}

// The answer to one haplotype of several behind its `hap` line.
fn put_block(
    s: Settings,
    table: &Table,
    numbers: &[u32],
    parts: &Parts,
    i: u32,
    out: &mut [u8],
    at: usize,
) -> usize
    ensures { Printed most_of_block out.old at (block_text s
        (table_held table.now) numbers.now i (parts_held parts.now)) out.new result }
{
    let behind = put_hap(out, at, i);
    put_search(s, table, numbers, parts, out, behind)
}

// A block for each haplotype, with its own stretch of the parts and of their rows of `width` entries.
fn put_blocks(
    s: Settings,
    table: &Table,
    numbers: &[u32],
    parts: &Parts,
    breaks: &[u64],
    width: usize,
    out: &mut [u8],
) -> usize
    requires { BlocksFit width (parts_held parts.now) breaks.now }
    ensures { let p = parts_held parts.now in
        Printed most_of_all out.old 0 (blocks_text s (table_held table.now) numbers.now 0
        (stretches width 0 (ends_of breaks.now (length p.sizes)) p)) out.new result }
{
    let mut from = 0;
    let mut end = 0;
    for i in 0..=breaks.len() {
        let to = stretch_end(breaks, i, parts.sizes.len());
        let own = Parts {
            sizes: &parts.sizes[from..to],
            features: &parts.features[from * width..to * width],
        };
        end = put_block(s, table, numbers, &own, i as u32, out, end);
        from = to;
    }
    end
}

// What refuses a whole job of several haplotypes: settings, table and room. The room is that of a search of one.
fn whole_fault(s: Settings, table: &Table, numbers: &[u32]) -> Result<(), Refusal>
    ensures { told result ≡ whole_fault s (table_held table.now) numbers.now }
{
    let none = Parts {
        sizes: &table.sizes[..0],
        features: &table.features[..0],
    };
    numbered_fault(s, table, numbers, &none, 1025, 16, 16)
}

// The lines of one haplotype; of several the refusal of the whole job, or each one's block.
pub(crate) fn put_haplotypes(
    s: Settings,
    table: &Table,
    numbers: &[u32],
    parts: &Parts,
    breaks: &[u64],
    width: usize,
    out: &mut [u8],
) -> usize
    requires { BlocksFit width (parts_held parts.now) breaks.now }
    ensures { let p = parts_held parts.now in
        Printed most_of_all out.old 0 (haplotypes_text s (table_held table.now) numbers.now
        (stretches width 0 (ends_of breaks.now (length p.sizes)) p)) out.new result }
{
    if breaks.is_empty() {
        return put_search(s, table, numbers, parts, out, 0);
    }
    if let Err(refusal) = whole_fault(s, table, numbers) {
        return put_refused(out, 0, refusal.into());
    }
    put_blocks(s, table, numbers, parts, breaks, width, out)
}
