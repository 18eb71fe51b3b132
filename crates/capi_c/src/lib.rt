// What C links: each call of capi under its own name, with the same contract. A crate is a library or a static library, so the library that others cite is capi.
#![tactic(auto)]

ghost use Rattle.capi.specs.Promises.{NdSeqToKmerPromise, NdSeqsimPromise, NdSizesimPromise, NdCountChainsPromise, NdAnswerPromise};
ghost use Rattle.capi.specs.Promises.{NdCheckPathPromise};
ghost use Rattle.capi.specs.Promises.{NdApplyHaplotypePromise, NdApplyHaplotypesPromise, NdReadBedPromise, NdWriteBedPromise};
ghost use Rattle.capi.specs.Promises.{NdCompanionsAddPromise, NdCompanionsRemovePromise, NdCompanionsTogetherPromise, NdCompanionsCountPromise};
ghost use Rattle.capi.specs.Promises.{NdMetaNewPromise, NdMetaBlankPromise, NdMetaCombinePromise};
ghost use Rattle.capi.specs.Promises.{NdBookSavePromise, NdBookReadPromise, NdBookRestorePromise};
ghost use Rattle.capi.specs.Promises.{NdMoveJobPromise};

#[unsafe(no_mangle)]
pub extern "C" fn nd_seq_to_kmer(
    text: &[u8],
    k: u8,
    negative: bool,
    letters: u8,
    row: &mut [i32],
) -> u32
    ensures { NdSeqToKmerPromise text.now k negative letters row.old row.new result }
{
    capi::nd_seq_to_kmer(text, k, negative, letters, row)
}

#[unsafe(no_mangle)]
pub extern "C" fn nd_seqsim(a: &[i32], b: &[i32], minkfreq: u32, place: &mut f32) -> u32
    ensures { NdSeqsimPromise a.now b.now minkfreq place.old place.new result }
{
    capi::nd_seqsim(a, b, minkfreq, place)
}

#[unsafe(no_mangle)]
pub extern "C" fn nd_sizesim(a: u64, b: u64, place: &mut f32) -> u32
    ensures { NdSizesimPromise a b place.old place.new result }
{
    capi::nd_sizesim(a, b, place)
}

#[unsafe(no_mangle)]
pub extern "C" fn nd_count_chains(
    starts: &[u64],
    ends: &[u64],
    full: bool,
    cap: u32,
    count: &mut u32,
) -> u32
    ensures { NdCountChainsPromise starts.now ends.now full cap count.old count.new result }
{
    capi::nd_count_chains(starts, ends, full, cap, count)
}

#[unsafe(no_mangle)]
pub extern "C" fn nd_answer(job: &[u8], text: &mut [u8; 8192]) -> u32
    ensures { NdAnswerPromise job.now text.old text.new result }
{
    capi::nd_answer(job, text)
}

#[unsafe(no_mangle)]
pub extern "C" fn nd_apply_haplotype(
    settings: &[u32; 14],
    starts: &[u64],
    ends: &[u64],
    sizes: &[i32],
    features: &[i32],
    record_numbers: &[u32],
    part_sizes: &[i32],
    part_features: &[i32],
    links: &mut [u32],
    keys: &mut [u64],
    rows: &mut [u32],
    records: &mut [u32],
    report: &mut [u32; 7],
) -> u32
    ensures { NdApplyHaplotypePromise settings.now starts.now ends.now sizes.now features.now
        record_numbers.now part_sizes.now part_features.now links.old keys.old rows.old
        records.old report.old links.new keys.new rows.new records.new report.new result }
{
    capi::nd_apply_haplotype(
        settings,
        starts,
        ends,
        sizes,
        features,
        record_numbers,
        part_sizes,
        part_features,
        links,
        keys,
        rows,
        records,
        report,
    )
}

#[unsafe(no_mangle)]
pub extern "C" fn nd_apply_haplotypes(
    settings: &[u32; 14],
    starts: &[u64],
    ends: &[u64],
    sizes: &[i32],
    features: &[i32],
    record_numbers: &[u32],
    part_ends: &[u64],
    feature_ends: &[u64],
    part_sizes: &[i32],
    part_features: &[i32],
    links: &mut [u32],
    keys: &mut [u64],
    rows: &mut [u32],
    records: &mut [u32],
    reports: &mut [u32],
) -> u32
    ensures { NdApplyHaplotypesPromise settings.now starts.now ends.now sizes.now features.now
        record_numbers.now part_ends.now feature_ends.now part_sizes.now part_features.now
        links.old keys.old rows.old records.old reports.old
        links.new keys.new rows.new records.new reports.new result }
{
    capi::nd_apply_haplotypes(
        settings,
        starts,
        ends,
        sizes,
        features,
        record_numbers,
        part_ends,
        feature_ends,
        part_sizes,
        part_features,
        links,
        keys,
        rows,
        records,
        reports,
    )
}

#[unsafe(no_mangle)]
pub extern "C" fn nd_read_bed(
    text: &[u8],
    starts: &mut [u64],
    ends: &mut [u64],
    name: &mut [u8; 32],
    counts: &mut [u32; 2],
) -> u32
    ensures { NdReadBedPromise text.now starts.old ends.old name.old counts.old
        starts.new ends.new name.new counts.new result }
{
    capi::nd_read_bed(text, starts, ends, name, counts)
}

#[unsafe(no_mangle)]
pub extern "C" fn nd_write_bed(
    name: &[u8],
    starts: &[u64],
    ends: &[u64],
    rows: &[u32],
    text: &mut [u8],
    written: &mut u64,
) -> u32
    ensures { NdWriteBedPromise name.now starts.now ends.now rows.now text.old written.old
        text.new written.new result }
{
    capi::nd_write_bed(name, starts, ends, rows, text, written)
}

#[unsafe(no_mangle)]
pub extern "C" fn nd_companions_add(
    starts: &mut [u64; 64],
    ends: &mut [u64; 64],
    sheet: &mut [bool; 4096],
    rows: &mut u32,
    start: u64,
    end: u64,
) -> u32
    ensures { NdCompanionsAddPromise starts.old ends.old sheet.old rows.old start end
        starts.new ends.new sheet.new rows.new result }
{
    capi::nd_companions_add(starts, ends, sheet, rows, start, end)
}

#[unsafe(no_mangle)]
pub extern "C" fn nd_companions_remove(
    starts: &[u64; 64],
    ends: &[u64; 64],
    sheet: &mut [bool; 4096],
    rows: &mut u32,
) -> u32
    ensures { NdCompanionsRemovePromise starts.now ends.now sheet.old rows.old sheet.new rows.new result }
{
    capi::nd_companions_remove(starts, ends, sheet, rows)
}

#[unsafe(no_mangle)]
pub extern "C" fn nd_companions_together(
    starts: &[u64; 64],
    ends: &[u64; 64],
    sheet: &[bool; 4096],
    rows: u32,
    a: u32,
    b: u32,
    yes: &mut u32,
) -> u32
    ensures { NdCompanionsTogetherPromise starts.now ends.now sheet.now rows a b yes.old yes.new result }
{
    capi::nd_companions_together(starts, ends, sheet, rows, a, b, yes)
}

#[unsafe(no_mangle)]
pub extern "C" fn nd_companions_count(
    starts: &[u64; 64],
    ends: &[u64; 64],
    sheet: &[bool; 4096],
    rows: u32,
    row: u32,
    count: &mut u32,
) -> u32
    ensures { NdCompanionsCountPromise starts.now ends.now sheet.now rows row count.old count.new result }
{
    capi::nd_companions_count(starts, ends, sheet, rows, row, count)
}

#[unsafe(no_mangle)]
pub extern "C" fn nd_meta_new(index: u64, samples: u64, meta: &mut [u64; 28]) -> u32
    ensures { NdMetaNewPromise index samples meta.old meta.new result }
{
    capi::nd_meta_new(index, samples, meta)
}

#[unsafe(no_mangle)]
pub extern "C" fn nd_meta_blank(samples: u64, meta: &mut [u64; 28]) -> u32
    ensures { NdMetaBlankPromise samples meta.old meta.new result }
{
    capi::nd_meta_blank(samples, meta)
}

#[unsafe(no_mangle)]
pub extern "C" fn nd_meta_combine(left: &mut [u64; 28], right: &[u64; 28]) -> u32
    ensures { NdMetaCombinePromise left.old right.now left.new result }
{
    capi::nd_meta_combine(left, right)
}

#[unsafe(no_mangle)]
pub extern "C" fn nd_check_path(
    settings: &[u32; 14],
    starts: &[u64],
    ends: &[u64],
    sizes: &[i32],
    features: &[i32],
    part_sizes: &[i32],
    part_features: &[i32],
    rows: &[u32],
    positions: &[u32],
    score: f32,
    yes: &mut u32,
) -> u32
    ensures { NdCheckPathPromise settings.now starts.now ends.now sizes.now features.now
        part_sizes.now part_features.now rows.now positions.now score yes.old yes.new result }
{
    capi::nd_check_path(
        settings,
        starts,
        ends,
        sizes,
        features,
        part_sizes,
        part_features,
        rows,
        positions,
        score,
        yes,
    )
}

#[unsafe(no_mangle)]
pub extern "C" fn nd_book_save(book: &mut [u8], settings: &[u8; 41], version: &mut u32) -> u32
    ensures { NdBookSavePromise book.old settings.now version.old book.new version.new result }
{
    capi::nd_book_save(book, settings, version)
}

#[unsafe(no_mangle)]
pub extern "C" fn nd_book_read(book: &[u8], version: u32, settings: &mut [u8; 41]) -> u32
    ensures { NdBookReadPromise book.now version settings.old settings.new result }
{
    capi::nd_book_read(book, version, settings)
}

#[unsafe(no_mangle)]
pub extern "C" fn nd_book_restore(book: &mut [u8], version: u32, added: &mut u32) -> u32
    ensures { NdBookRestorePromise book.old version added.old book.new added.new result }
{
    capi::nd_book_restore(book, version, added)
}

#[unsafe(no_mangle)]
pub extern "C" fn nd_move_job(job: &[u8], edition: u32, out: &mut [u8], written: &mut u64) -> u32
    ensures { NdMoveJobPromise job.now edition out.old written.old out.new written.new result }
{
    capi::nd_move_job(job, edition, out, written)
}
