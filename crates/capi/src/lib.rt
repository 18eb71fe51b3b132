// What Rust and C link, by the exports of capi_c: the library's calls on numbers and slices. Each gives back the refusal's number, 0 for an accepted call.
#![tactic(auto)]

ghost use Rattle.capi.specs.Promises.{NdSeqToKmerPromise, NdSeqsimPromise, NdSizesimPromise, NdCountChainsPromise, NdAnswerPromise};
ghost use Rattle.capi.specs.Promises.{NdCheckPathPromise};
ghost use Rattle.capi.specs.Promises.{NdApplyHaplotypePromise, NdApplyHaplotypesPromise, NdReadBedPromise, NdWriteBedPromise};
ghost use Rattle.capi.specs.Promises.{NdCompanionsAddPromise, NdCompanionsRemovePromise, NdCompanionsTogetherPromise, NdCompanionsCountPromise};
ghost use Rattle.capi.specs.Promises.{NdMetaNewPromise, NdMetaBlankPromise, NdMetaCombinePromise};
ghost use Rattle.capi.specs.Promises.{NdBookSavePromise, NdBookReadPromise, NdBookRestorePromise};
ghost use Rattle.capi.specs.Promises.{NdMoveJobPromise};
ghost use Rattle.std.specs.Prelude.{◌≡◌};
ghost use Rattle.metrics.specs.Refusals.{told};
ghost use Rattle.std.specs.Result.{result_unwrap_or};
ghost use Rattle.meta.specs.Words.{words_of_meta};
ghost use Rattle.capi.specs.Made.{made_data, made_number};

use crate::words::{length_word, settings_of_words, word_of_flag};
use kplib::report::put_report;
use meta::words::{meta_of_words, words_of_meta};
use meta::{HaplotypeMeta, NotMade};
use metrics::refusals::{ACCEPTED, Refusal, told};
use params::{Parts, Table};

mod words;

// A call's value at its place, or what stands there for a refusal; and the call's number.
fn told_at<T: Copy>(came: Result<T, Refusal>, at: &mut T, refused: T) -> u32
    ensures number { result ≡ told came }
    ensures value { at.new ≡ result_unwrap_or came refused }
{
    match came {
        Ok(value) => {
            *at = value;
            ACCEPTED
        }
        Err(refusal) => {
            *at = refused;
            refusal.into()
        }
    }
}

pub fn nd_seq_to_kmer(text: &[u8], k: u8, negative: bool, letters: u8, row: &mut [i32]) -> u32
    ensures { NdSeqToKmerPromise text.now k negative letters row.old row.new result }
{
    told(metrics::kmer::seq_to_kmer(text, k, negative, letters, row))
}

pub fn nd_seqsim(a: &[i32], b: &[i32], minkfreq: u32, place: &mut f32) -> u32
    ensures { NdSeqsimPromise a.now b.now minkfreq place.old place.new result }
{
    told_at(metrics::seqsim(a, b, minkfreq), place, 0.0)
}

pub fn nd_sizesim(a: u64, b: u64, place: &mut f32) -> u32
    ensures { NdSizesimPromise a b place.old place.new result }
{
    told_at(metrics::sizesim(a, b), place, 0.0)
}

pub fn nd_count_chains(starts: &[u64], ends: &[u64], full: bool, cap: u32, count: &mut u32) -> u32
    ensures { NdCountChainsPromise starts.now ends.now full cap count.old count.new result }
{
    told_at(
        kplib::vargraph::count_chains(starts, ends, full, cap),
        count,
        0,
    )
}

// The program's answer to a job's bytes, at the front of `text`. Returns how long it is.
pub fn nd_answer(job: &[u8], text: &mut [u8; 8192]) -> u32
    ensures { NdAnswerPromise job.now text.old text.new result }
{
    let n = desk::answer(job, text);
    length_word(n, text)
}

// The queue's content is open after a search, and only then.
pub fn nd_apply_haplotype(
    settings: &[u32; 14],
    starts: &[u64],
    ends: &[u64],
    sizes: &[i32],
    features: &[i32],
    record_numbers: &[u32],
    part_sizes: &[i32],
    part_features: &[i32],
    links: &mut [u32],
    keys: &mut [u64],
    rows: &mut [u32],
    records: &mut [u32],
    report: &mut [u32; 7],
) -> u32
    ensures { NdApplyHaplotypePromise settings.now starts.now ends.now sizes.now features.now
        record_numbers.now part_sizes.now part_features.now links.old keys.old rows.old
        records.old report.old links.new keys.new rows.new records.new report.new result }
{
    let s = settings_of_words(settings);
    let table = Table {
        starts,
        ends,
        sizes,
        features,
    };
    let parts = Parts {
        sizes: part_sizes,
        features: part_features,
    };
    let answer = dive::apply_numbered(
        s,
        &table,
        record_numbers,
        &parts,
        links,
        keys,
        rows,
        records,
    );
    put_report(answer, report);
    answer.refusal
}

// Several haplotypes over one table; each has its refusal and its answer in its own eight words of the reports.
pub fn nd_apply_haplotypes(
    settings: &[u32; 14],
    starts: &[u64],
    ends: &[u64],
    sizes: &[i32],
    features: &[i32],
    record_numbers: &[u32],
    part_ends: &[u64],
    feature_ends: &[u64],
    part_sizes: &[i32],
    part_features: &[i32],
    links: &mut [u32],
    keys: &mut [u64],
    rows: &mut [u32],
    records: &mut [u32],
    reports: &mut [u32],
) -> u32
    ensures { NdApplyHaplotypesPromise settings.now starts.now ends.now sizes.now features.now
        record_numbers.now part_ends.now feature_ends.now part_sizes.now part_features.now
        links.old keys.old rows.old records.old reports.old
        links.new keys.new rows.new records.new reports.new result }
{
    let s = settings_of_words(settings);
    let table = Table {
        starts,
        ends,
        sizes,
        features,
    };
    let parts = Parts {
        sizes: part_sizes,
        features: part_features,
    };
    told(dive::apply_numbered_haplotypes(
        s,
        &table,
        record_numbers,
        part_ends,
        feature_ends,
        &parts,
        links,
        keys,
        rows,
        records,
        reports,
    ))
}

// The counts are how many rows there are and how long the name is; both 0 on a refusal.
pub fn nd_read_bed(
    text: &[u8],
    starts: &mut [u64],
    ends: &mut [u64],
    name: &mut [u8; 32],
    counts: &mut [u32; 2],
) -> u32
    ensures { NdReadBedPromise text.now starts.old ends.old name.old counts.old
        starts.new ends.new name.new counts.new result }
{
    match bed::read_bed(text, starts, ends, name) {
        Ok(found) => {
            *counts = [found.rows, found.width];
            ACCEPTED
        }
        Err(refusal) => {
            *counts = [0, 0];
            refusal.into()
        }
    }
}

// How many bytes are written; 0 on a refusal.
pub fn nd_write_bed(
    name: &[u8],
    starts: &[u64],
    ends: &[u64],
    rows: &[u32],
    text: &mut [u8],
    written: &mut u64,
) -> u32
    ensures { NdWriteBedPromise name.now starts.now ends.now rows.now text.old written.old
        text.new written.new result }
{
    let wrote = bed::write_bed(name, starts, ends, rows, text);
    told_at(wrote.map(|bytes| bytes as u64), written, 0)
}

// A row at the end of a table, and the table's sheet with it.
pub fn nd_companions_add(
    starts: &mut [u64; 64],
    ends: &mut [u64; 64],
    sheet: &mut [bool; 4096],
    rows: &mut u32,
    start: u64,
    end: u64,
) -> u32
    ensures { NdCompanionsAddPromise starts.old ends.old sheet.old rows.old start end
        starts.new ends.new sheet.new rows.new result }
{
    told(companions::add(starts, ends, sheet, rows, start, end))
}

// The last row taken away.
pub fn nd_companions_remove(
    starts: &[u64; 64],
    ends: &[u64; 64],
    sheet: &mut [bool; 4096],
    rows: &mut u32,
) -> u32
    ensures { NdCompanionsRemovePromise starts.now ends.now sheet.old rows.old sheet.new rows.new result }
{
    told(companions::remove(starts, ends, sheet, rows))
}

// Yes is 1, no is 0; 0 on a refusal.
pub fn nd_companions_together(
    starts: &[u64; 64],
    ends: &[u64; 64],
    sheet: &[bool; 4096],
    rows: u32,
    a: u32,
    b: u32,
    yes: &mut u32,
) -> u32
    ensures { NdCompanionsTogetherPromise starts.now ends.now sheet.now rows a b yes.old yes.new result }
{
    let paired = companions::together(starts, ends, sheet, rows, a, b);
    told_at(paired.map(|may| word_of_flag(may)), yes, 0)
}

// How many later companions a row has; 0 on a refusal.
pub fn nd_companions_count(
    starts: &[u64; 64],
    ends: &[u64; 64],
    sheet: &[bool; 4096],
    rows: u32,
    row: u32,
    count: &mut u32,
) -> u32
    ensures { NdCompanionsCountPromise starts.now ends.now sheet.now rows row count.old count.new result }
{
    told_at(companions::count(starts, ends, sheet, rows, row), count, 0)
}

// What was made, or a blank of one sample in its place, as words; and the call's number.
fn put_made(made: Result<HaplotypeMeta, NotMade>, meta: &mut [u64; 28]) -> u32
    ensures number { result ≡ made_number made }
    ensures words { meta.new ≡ words_of_meta (made_data made) }
{
    match made {
        Ok(one) => {
            *meta = words_of_meta(one);
            ACCEPTED
        }
        Err(not_made) => {
            *meta = words_of_meta(not_made.meta);
            not_made.refusal.into()
        }
    }
}

// One read of one sample, as 28 words; a blank of one sample on a refusal.
pub fn nd_meta_new(index: u64, samples: u64, meta: &mut [u64; 28]) -> u32
    ensures { NdMetaNewPromise index samples meta.old meta.new result }
{
    put_made(meta::new(index, samples), meta)
}

// No read of any sample; a blank of one sample on a refusal.
pub fn nd_meta_blank(samples: u64, meta: &mut [u64; 28]) -> u32
    ensures { NdMetaBlankPromise samples meta.old meta.new result }
{
    put_made(meta::new_blank(samples), meta)
}

// The two combined, on the left, which a refusal leaves as it was.
pub fn nd_meta_combine(left: &mut [u64; 28], right: &[u64; 28]) -> u32
    ensures { NdMetaCombinePromise left.old right.now left.new result }
{
    match meta::combine(meta_of_words(left), meta_of_words(right)) {
        Ok(combined) => {
            *left = words_of_meta(combined.left);
            ACCEPTED
        }
        Err(not_combined) => not_combined.refusal.into(),
    }
}

// Whether a path that someone else proposes is one that the search could have found. Yes is 1, no is 0; 0 on a refusal.
pub fn nd_check_path(
    settings: &[u32; 14],
    starts: &[u64],
    ends: &[u64],
    sizes: &[i32],
    features: &[i32],
    part_sizes: &[i32],
    part_features: &[i32],
    rows: &[u32],
    positions: &[u32],
    score: f32,
    yes: &mut u32,
) -> u32
    ensures { NdCheckPathPromise settings.now starts.now ends.now sizes.now features.now
        part_sizes.now part_features.now rows.now positions.now score yes.old yes.new result }
{
    let s = settings_of_words(settings);
    let table = Table {
        starts,
        ends,
        sizes,
        features,
    };
    let parts = Parts {
        sizes: part_sizes,
        features: part_features,
    };
    let checked = kplib::checkpath::check_path(s, &table, &parts, rows, positions, score);
    told_at(checked.map(|good| good as u32), yes, 0)
}

// The settings under the next version of a book, which is told; 0 on a refusal.
pub fn nd_book_save(book: &mut [u8], settings: &[u8; 41], version: &mut u32) -> u32
    ensures { NdBookSavePromise book.old settings.now version.old book.new version.new result }
{
    told_at(book::save(book, settings), version, 0)
}

pub fn nd_book_read(book: &[u8], version: u32, settings: &mut [u8; 41]) -> u32
    ensures { NdBookReadPromise book.now version settings.old settings.new result }
{
    told(book::read(book, version, settings))
}

// The settings of a version saved again under the next, which is told; 0 on a refusal.
pub fn nd_book_restore(book: &mut [u8], version: u32, added: &mut u32) -> u32
    ensures { NdBookRestorePromise book.old version added.old book.new added.new result }
{
    told_at(book::restore(book, version), added, 0)
}

// A job's bytes in the edition asked for, 1 or 2. How many are written; 0 on a refusal.
pub fn nd_move_job(job: &[u8], edition: u32, out: &mut [u8], written: &mut u64) -> u32
    ensures { NdMoveJobPromise job.now edition out.old written.old out.new written.new result }
{
    let moved = editions::move_job(job, edition, out);
    told_at(moved.map(|bytes| bytes as u64), written, 0)
}
