// Writes a job into a lent slice, in either edition of the form. The editions differ in the records of settings and variants alone, and so do the few functions here that look at it.
#![tactic(auto)]

ghost use Rattle.std.specs.Prelude.{◌≡◌, ◌∷◌, ◌≤◌, ◌<◌, ◌+◌, ◌^◌, suc, ◌*◌, ◌-◌, eqb, length, take, drop, get_or};
ghost use Rattle.std.proofs.lemmas.List.Edits.{sets};
ghost use Rattle.std.proofs.Math.Seq.{slice};
ghost use Rattle.metrics.specs.Refusals.{told};
ghost use Rattle.form.specs.Form.{most_breaks, part_kind, letters_kind, part_len, letters_len};
ghost use Rattle.form.specs.Job.{padded, records_for, sequence_bytes, part_body, settings_record, variant_record, variants_bytes, parts_bytes, haplotypes_bytes, job_bytes};
ghost use Rattle.form.specs.Lent.{sum};
ghost use Rattle.writer.specs.Writing.{any_over, agree, four_agree, two_agree, in_order, numbers_agree, letters_lost, writing_fault, variants_from, parts_from, cut_at, job_from};
ghost use Rattle.writer.specs.Steps.{held, variant_kind_by, settings_size, variant_size, number_tail, cost_of, total, left_of, VariantsFit, PartsFit, HaplotypesFit, Put, JobFits};
ghost use Rattle.writer.specs.Promises.{WrittenBy, WriteJobPromise, WriteNumberedJobPromise};

use fields::{put_u8, put_u32, put_u64, u32_of};
use form::records::{
    END, Edition, LETTERS, LETTERS_BODY, LETTERS_RECORD, MOST_BREAKS, MOST_LETTERS, NEXT, PART,
    PART_RECORD, SETTINGS, SETTINGS_RECORD, SETTINGS2, SETTINGS2_RECORD, VARIANT, VARIANT_RECORD,
    VARIANT2, VARIANT2_RECORD, body_len, kind_of,
};
use form::settings::{write_settings, write_settings41};
use metrics::refusals::Refusal;
use params::Settings;

// What a caller lends of a job: a row of five for a variant, of three for a part, how many parts stand before each haplotype but the first, and the letters of all.
#[derive(Clone, Copy)]
struct Lent<'a> {
    starts: &'a [u64],
    ends: &'a [u64],
    sizes: &'a [i32],
    negatives: &'a [bool],
    letter_counts: &'a [u32],
    part_sizes: &'a [i32],
    part_negatives: &'a [bool],
    part_letter_counts: &'a [u32],
    breaks: &'a [u64],
    letters: &'a [u8],
}

// How far the writing has come: the next byte, and the next letter.
#[derive(Clone, Copy)]
struct Reached {
    at: usize,
    letter: usize,
}

// Where the editions differ: the byte that begins a variant, how long the records of settings and variant are, and what they have a place for.
fn variant_kind(edition: Edition) -> u8
    ensures { result ≡ variant_kind_by edition }
{
    match edition {
        Edition::One => VARIANT,
        Edition::Two => VARIANT2,
    }
}

fn settings_size(edition: Edition) -> usize
    ensures { result ≡ settings_size edition }
{
    match edition {
        Edition::One => SETTINGS_RECORD,
        Edition::Two => SETTINGS2_RECORD,
    }
}

fn variant_size(edition: Edition) -> usize
    ensures { result ≡ variant_size edition }
{
    match edition {
        Edition::One => VARIANT_RECORD,
        Edition::Two => VARIANT2_RECORD,
    }
}

fn numbers_agree(edition: Edition, numbers: usize, v: usize) -> bool
    ensures { result ≡ numbers_agree edition numbers v }
{
    match edition {
        Edition::One => true,
        Edition::Two => numbers == v,
    }
}

fn letters_lost(edition: Edition, letters: u8) -> bool
    ensures { result ≡ letters_lost edition letters }
{
    match edition {
        Edition::One => letters == 1,
        Edition::Two => false,
    }
}

#[tactic(auto, unfolding(crate::specs::Writing::four_agree))]
fn rows_agree(n: usize, a: usize, b: usize, c: usize, d: usize) -> bool
    ensures { result ≡ four_agree n a b c d }
{
    a == n && b == n && c == n && d == n
}

#[tactic(auto, unfolding(crate::specs::Writing::two_agree))]
fn parts_agree(n: usize, a: usize, b: usize) -> bool
    ensures { result ≡ two_agree n a b }
{
    a == n && b == n
}

fn cost(kind: u8, count: u32) -> usize
    ensures { (result ≡ cost_of kind count) × (result < 2 ^ 40) }
{
    let n = count as usize;
    if kind == LETTERS {
        return n;
    }
    1 + body_len(kind_of(kind)) + LETTERS_RECORD * ((n + 15) / LETTERS_BODY)
}

// Takes the sequences' costs away one by one: their sum may be past 64 bits.
fn left_after(kind: u8, counts: &[u32], have: usize) -> Option<usize>
    ensures { result ≡ left_of (total kind counts.now) have }
{
    let mut left = have;
    for count in counts {
        left = left.checked_sub(cost(kind, *count))?;
    }
    Some(left)
}

fn letters_agree(counts: &[u32], parts: &[u32], have: usize) -> bool
    ensures { result ≡ eqb (sum counts.now + sum parts.now) have }
{
    match left_after(LETTERS, counts, have) {
        None => false,
        Some(n) => left_after(LETTERS, parts, n) == Some(0),
    }
}

fn breaks_agree(m: usize, breaks: &[u64]) -> bool
    ensures { result ≡ in_order m 0 breaks.now }
{
    let mut low = 0usize;
    for parts_before in breaks {
        let b = *parts_before as usize;
        if b < low {
            return false;
        }
        if m < b {
            return false;
        }
        low = b;
    }
    true
}

// What is left of the room behind the settings, the variants, the parts, the haplotypes' own records and the end.
fn spare(
    edition: Edition,
    counts: &[u32],
    parts: &[u32],
    breaks: usize,
    room: usize,
) -> Option<usize>
    requires { breaks ≤ most_breaks }
    ensures { result ≡ left_of (settings_size edition + 1 + breaks + (total (variant_kind_by edition) counts.now + total part_kind parts.now)) room }
{
    let least = settings_size(edition) + 1 + breaks;
    let behind = room.checked_sub(least)?;
    let n = left_after(variant_kind(edition), counts, behind)?;
    left_after(PART, parts, n)
}

fn any_over(counts: &[u32]) -> bool
    ensures { result ≡ any_over counts.now }
{
    counts.iter().any(|count| *count > MOST_LETTERS)
}

fn letter_or_zero(letters: &[u8], i: usize, end: usize) -> u8
    requires { end ≤ length letters.now }
    ensures { result ≡ get_or (take end letters.now) i 0 }
{
    letters[..end].get(i).copied().unwrap_or(0)
}

// One letters record: the next sixteen, with zeros from `end` on.
fn write_letters(out: &mut [u8], at: usize, letters: &[u8], from: usize, end: usize)
    requires { (end ≤ length letters.now) × ((from < end) × (at + suc letters_len ≤ length out.old)) }
    ensures { out.new ≡ sets out.old at (letters_kind ∷ padded (slice from end letters.now)) }
{
    put_u8(out, at, LETTERS);
    write_padded(out, at + 1, letters, from, end);
}

fn write_padded(out: &mut [u8], at: usize, letters: &[u8], from: usize, end: usize)
    requires { (end ≤ length letters.now) × ((from < end) × (at + letters_len ≤ length out.old)) }
    ensures { out.new ≡ sets out.old at (padded (slice from end letters.now)) }
{
    for j in 0..LETTERS_BODY {
        out[at + j] = letter_or_zero(letters, from + j, end);
    }
}

// The letters from `from` up to `end`, in just enough records. Returns the position behind them.
fn write_sequence(out: &mut [u8], at: usize, letters: &[u8], from: usize, end: usize) -> usize
    requires { (end ≤ length letters.now) × (at + suc letters_len * records_for (end - from) ≤ length out.old) }
    ensures { Put out.old out.new at result (sequence_bytes (slice from end letters.now)) }
{
    let mut p = from;
    let mut a = at;
    // steps by whole records
    while p < end {
        write_letters(out, a, letters, p, end);
        a += LETTERS_RECORD;
        p += LETTERS_BODY;
    }
    a
}

fn write_body(out: &mut [u8], at: usize, size: i32, negative: bool, count: u32)
    requires { at + part_len ≤ length out.old }
    ensures { out.new ≡ sets out.old at (part_body size negative count) }
{
    put_u32(out, at, u32_of(size));
    put_u8(out, at + 4, negative as u8);
    put_u32(out, at + 5, count);
}

// The record of the settings, at the front.
fn write_settings_record(out: &mut [u8], edition: Edition, s: Settings)
    ensures { out.new ≡ sets out.old 0 (settings_record edition s) }
{
    match edition {
        Edition::One => {
            put_u8(out, 0, SETTINGS);
            write_settings(out, 1, s);
        }
        Edition::Two => {
            put_u8(out, 0, SETTINGS2);
            write_settings41(out, 1, s);
        }
    }
}

// The record number of a row; 0 where none is lent, in the edition that has no place for it.
fn number_at(numbers: &[u32], r: usize) -> u32
    ensures { result ≡ get_or numbers.now r 0 }
{
    numbers.get(r).copied().unwrap_or(0)
}

fn write_number(out: &mut [u8], at: usize, edition: Edition, number: u32)
    ensures { out.new ≡ sets out.old at (number_tail edition number) }
{
    match edition {
        Edition::One => {}
        Edition::Two => put_u32(out, at, number),
    }
}

// A variant's record, without its letters.
fn write_variant(
    out: &mut [u8],
    at: usize,
    edition: Edition,
    number: u32,
    first: u64,
    last: u64,
    size: i32,
    negative: bool,
    count: u32,
)
    requires { at + variant_size edition ≤ length out.old }
    ensures { out.new ≡ sets out.old at (variant_record edition number first last size negative count) }
{
    put_u8(out, at, variant_kind(edition));
    put_u64(out, at + 1, first);
    put_u64(out, at + 9, last);
    write_body(out, at + 17, size, negative, count);
    write_number(out, at + VARIANT_RECORD, edition, number);
}

fn write_part(out: &mut [u8], at: usize, size: i32, negative: bool, count: u32)
    requires { at + suc part_len ≤ length out.old }
    ensures { out.new ≡ sets out.old at (part_kind ∷ part_body size negative count) }
{
    put_u8(out, at, PART);
    write_body(out, at + 1, size, negative, count);
}

fn write_variants(
    out: &mut [u8],
    at: usize,
    edition: Edition,
    numbers: &[u32],
    starts: &[u64],
    ends: &[u64],
    sizes: &[i32],
    negatives: &[bool],
    counts: &[u32],
    letters: &[u8],
) -> Reached
    requires { VariantsFit edition numbers.now starts.now ends.now sizes.now negatives.now counts.now letters.now at (length out.old) }
    ensures rows { Put out.old out.new at result.at (variants_bytes edition numbers.now (variants_from starts.now
        ends.now sizes.now negatives.now counts.now letters.now 0 0 (length starts.now))) }
    ensures letter { result.letter ≡ sum counts.now }
{
    let head = variant_size(edition);
    let mut a = at;
    let mut p = 0usize;
    for r in 0..starts.len() {
        let count = counts[r];
        let end = p + count as usize;
        let number = number_at(numbers, r);
        write_variant(
            out,
            a,
            edition,
            number,
            starts[r],
            ends[r],
            sizes[r],
            negatives[r],
            count,
        );
        a = write_sequence(out, a + head, letters, p, end);
        p = end;
    }
    Reached { at: a, letter: p }
}

// The parts of the rows from `first` up to `end`, whose letters begin at `from`.
fn write_parts(
    out: &mut [u8],
    at: usize,
    sizes: &[i32],
    negatives: &[bool],
    counts: &[u32],
    letters: &[u8],
    from: usize,
    first: usize,
    end: usize,
) -> Reached
    requires { PartsFit sizes.now negatives.now counts.now letters.now from first end at (length out.old) }
    ensures rows { Put out.old out.new at result.at (parts_bytes (parts_from sizes.now negatives.now
        counts.now letters.now first from (end - first))) }
    ensures letter { result.letter + sum (drop end counts.now) ≡ length letters.now }
{
    let mut a = at;
    let mut p = from;
    for r in first..end {
        let count = counts[r];
        let stop = p + count as usize;
        write_part(out, a, sizes[r], negatives[r], count);
        a = write_sequence(out, a + PART_RECORD, letters, p, stop);
        p = stop;
    }
    Reached { at: a, letter: p }
}

// All parts, each haplotype's but the first behind a record of its own. Returns the position behind them.
fn write_haplotypes(
    out: &mut [u8],
    at: usize,
    sizes: &[i32],
    negatives: &[bool],
    counts: &[u32],
    breaks: &[u64],
    letters: &[u8],
    from: usize,
) -> usize
    requires { HaplotypesFit sizes.now negatives.now counts.now letters.now from breaks.now at (length out.old) }
    ensures { Put out.old out.new at result (haplotypes_bytes (cut_at 0 breaks.now (parts_from sizes.now
        negatives.now counts.now letters.now 0 from (length sizes.now)))) }
{
    let mut a = at;
    let mut p = from;
    let mut r = 0usize;
    for place in breaks {
        let end = *place as usize;
        let done = write_parts(out, a, sizes, negatives, counts, letters, p, r, end);
        put_u8(out, done.at, NEXT);
        a = done.at + 1;
        p = done.letter;
        r = end;
    }
    let last = write_parts(out, a, sizes, negatives, counts, letters, p, r, sizes.len());
    last.at
}

fn lay_job(
    edition: Edition,
    settings: Settings,
    numbers: &[u32],
    job: &Lent,
    out: &mut [u8],
) -> usize
    requires { JobFits edition numbers.now settings (held job.now) (length out.old) }
    ensures { Put out.old out.new 0 result (job_bytes edition numbers.now (job_from settings (held job.now))) }
{
    write_settings_record(out, edition, settings);
    let v = write_variants(
        out,
        settings_size(edition),
        edition,
        numbers,
        job.starts,
        job.ends,
        job.sizes,
        job.negatives,
        job.letter_counts,
        job.letters,
    );
    let at = write_haplotypes(
        out,
        v.at,
        job.part_sizes,
        job.part_negatives,
        job.part_letter_counts,
        job.breaks,
        job.letters,
        v.letter,
    );
    put_u8(out, at, END);
    at + 1
}

// Whether the rows, the letters and the breaks agree.
fn agrees(job: &Lent) -> bool
    ensures { result ≡ agree (held job.now) }
{
    rows_agree(
        job.starts.len(),
        job.ends.len(),
        job.sizes.len(),
        job.negatives.len(),
        job.letter_counts.len(),
    ) && parts_agree(
        job.part_sizes.len(),
        job.part_negatives.len(),
        job.part_letter_counts.len(),
    ) && letters_agree(job.letter_counts, job.part_letter_counts, job.letters.len())
        && breaks_agree(job.part_sizes.len(), job.breaks)
}

// What no room mends: 27, 6, 24, 13 or 29.
#[tactic(auto, unfolding(crate::specs::Writing::writing_fault))]
fn writing_fault(
    edition: Edition,
    settings: Settings,
    numbers: &[u32],
    job: &Lent,
) -> Result<(), Refusal>
    ensures { told result ≡ writing_fault edition numbers.now settings (held job.now) }
{
    if MOST_BREAKS < job.breaks.len() {
        return Err(Refusal::TooManyHaplotypes);
    }
    if !(numbers_agree(edition, numbers.len(), job.starts.len()) && agrees(job)) {
        return Err(Refusal::BadLengths);
    }
    if 1 < settings.letters {
        return Err(Refusal::BadFlag);
    }
    if any_over(job.letter_counts) || any_over(job.part_letter_counts) {
        return Err(Refusal::TooManyLetters);
    }
    if letters_lost(edition, settings.letters) {
        return Err(Refusal::LettersOne);
    }
    Ok(())
}

// The job that the slices hold, written in an edition at the front of `out`, or refused with nothing written.
fn write_by(
    edition: Edition,
    settings: Settings,
    numbers: &[u32],
    job: &Lent,
    out: &mut [u8],
) -> Result<usize, Refusal>
    ensures { WrittenBy edition numbers.now settings (held job.now) out.old out.new result }
{
    writing_fault(edition, settings, numbers, job)?;
    let room = spare(
        edition,
        job.letter_counts,
        job.part_letter_counts,
        job.breaks.len(),
        out.len(),
    );
    match room {
        None => Err(Refusal::LittleRoom),
        Some(_) => Ok(lay_job(edition, settings, numbers, job, out)),
    }
}

// The job that the slices hold, written in edition 1 at the front of `out`, or refused by 27, 6, 24, 13, 29 or 30 with nothing written.
pub fn write_job(
    settings: Settings,
    starts: &[u64],
    ends: &[u64],
    sizes: &[i32],
    negatives: &[bool],
    letter_counts: &[u32],
    part_sizes: &[i32],
    part_negatives: &[bool],
    part_letter_counts: &[u32],
    breaks: &[u64],
    letters: &[u8],
    out: &mut [u8],
) -> Result<usize, Refusal>
    ensures { WriteJobPromise settings starts.now ends.now sizes.now negatives.now letter_counts.now
        part_sizes.now part_negatives.now part_letter_counts.now breaks.now letters.now out.old out.new result }
{
    write_by(
        Edition::One,
        settings,
        &letter_counts[0..0],
        &Lent {
            starts,
            ends,
            sizes,
            negatives,
            letter_counts,
            part_sizes,
            part_negatives,
            part_letter_counts,
            breaks,
            letters,
        },
        out,
    )
}

// The same in edition 2, with a record number for each variant: refused by 27, 6, 24, 13 or 30.
pub fn write_numbered_job(
    settings: Settings,
    numbers: &[u32],
    starts: &[u64],
    ends: &[u64],
    sizes: &[i32],
    negatives: &[bool],
    letter_counts: &[u32],
    part_sizes: &[i32],
    part_negatives: &[bool],
    part_letter_counts: &[u32],
    breaks: &[u64],
    letters: &[u8],
    out: &mut [u8],
) -> Result<usize, Refusal>
    ensures { WriteNumberedJobPromise settings numbers.now starts.now ends.now sizes.now negatives.now letter_counts.now
        part_sizes.now part_negatives.now part_letter_counts.now breaks.now letters.now out.old out.new result }
{
    write_by(
        Edition::Two,
        settings,
        numbers,
        &Lent {
            starts,
            ends,
            sizes,
            negatives,
            letter_counts,
            part_sizes,
            part_negatives,
            part_letter_counts,
            breaks,
            letters,
        },
        out,
    )
}
