// Lays a form's variants, parts, breaks and letters out in lent slices.
ghost use Rattle.std.specs.Prelude.{◌≡◌, ◌≤◌, ◌<◌, ◌+◌, ◌^◌, ◌∷◌, length, set};
ghost use Rattle.form.specs.Job.{variant_of, variant_here, part_of, part_here, letters_in, gather};
ghost use Rattle.form.specs.Form.{letters_kind, variant_len, part_len, letters_len, body_len};
ghost use Rattle.form.specs.declared.records.Kind.TheVariants.{Variant};
ghost use Rattle.form.specs.Steps.{letters_given, letters_owed, letters_walk, break_here, breaks_walk};
ghost use Rattle.reader.specs.Steps.{rows, put_row, part_rows, put_part, stores, Stored};

use fields::{i32_of, put_u8, u8_at, u32_at, u64_at};
use form::records::{
    Kind, LETTERS_EACH, PART_BODY, PART_COUNT, PART_FLAG, VARIANT_COUNT, VARIANT_FLAG, body_len,
    record_at,
};

// Stores x in row i, where the slice has one.
pub(crate) fn store<T: Copy>(rows: &mut [T], i: usize, x: T)
    ensures { rows.new ≡ set rows.old i x }
{
    if i < rows.len() {
        rows[i] = x;
    }
}

// Row v of each slice, where it has one. A variant's fields stand at the same places in both editions: b's are those of edition 1.
fn put_variant(
    b: &[u8],
    v: usize,
    starts: &mut [u64],
    ends: &mut [u64],
    sizes: &mut [i32],
    negatives: &mut [bool],
    counts: &mut [u32],
)
    requires { variant_len ≤ length b.now }
    ensures { rows starts.new ends.new sizes.new negatives.new counts.new
        ≡ put_row (rows starts.old ends.old sizes.old negatives.old counts.old)
        v (variant_of Variant b.now) }
{
    store(starts, v, u64_at(b, 0));
    store(ends, v, u64_at(b, 8));
    store(sizes, v, i32_of(u32_at(b, 16)));
    store(negatives, v, b[VARIANT_FLAG] == 1);
    store(counts, v, u32_at(b, VARIANT_COUNT));
}

// What one record adds, from row v on. Returns the next row.
#[tactic(auto, using(crate::proofs::FillLaws::adds_none, crate::proofs::FillLaws::adds_one), unfolding(form::specs::Job::variant_here, form::specs::Form::body_len))]
fn fill_variant(
    kind: Kind,
    b: &[u8],
    v: usize,
    starts: &mut [u64],
    ends: &mut [u64],
    sizes: &mut [i32],
    negatives: &mut [bool],
    counts: &mut [u32],
) -> usize
    requires { v < 2 ^ 63 }
    ensures { Stored put_row (rows starts.old ends.old sizes.old negatives.old counts.old)
        (rows starts.new ends.new sizes.new negatives.new counts.new)
        v result (variant_here kind b.now) }
{
    if !matches!(kind, Kind::Variant | Kind::Variant2) || b.len() < body_len(kind) {
        return v;
    }
    put_variant(b, v, starts, ends, sizes, negatives, counts);
    v + 1
}

fn put_part(b: &[u8], v: usize, sizes: &mut [i32], negatives: &mut [bool], counts: &mut [u32])
    requires { part_len ≤ length b.now }
    ensures { part_rows sizes.new negatives.new counts.new
        ≡ put_part (part_rows sizes.old negatives.old counts.old) v (part_of b.now) }
{
    store(sizes, v, i32_of(u32_at(b, 0)));
    store(negatives, v, b[PART_FLAG] == 1);
    store(counts, v, u32_at(b, PART_COUNT));
}

#[tactic(auto, using(crate::proofs::FillLaws::adds_none, crate::proofs::FillLaws::adds_one), unfolding(form::specs::Job::part_here))]
fn fill_part(
    kind: Kind,
    b: &[u8],
    v: usize,
    sizes: &mut [i32],
    negatives: &mut [bool],
    counts: &mut [u32],
) -> usize
    requires { v < 2 ^ 63 }
    ensures { Stored put_part (part_rows sizes.old negatives.old counts.old)
        (part_rows sizes.new negatives.new counts.new) v result (part_here kind b.now) }
{
    if !matches!(kind, Kind::Part) || b.len() < PART_BODY {
        return v;
    }
    put_part(b, v, sizes, negatives, counts);
    v + 1
}

// A record that begins a haplotype behind p parts, stored in row v. Returns the next row.
#[tactic(auto, unfolding(form::specs::Steps::break_here, crate::specs::Steps::stores))]
fn fill_break(kind: Kind, p: usize, v: usize, breaks: &mut [u64]) -> usize
    requires { v < 2 ^ 63 }
    ensures { Stored set breaks.old breaks.new v result (break_here kind p) }
{
    if !matches!(kind, Kind::Next) {
        return v;
    }
    store(breaks, v, p as u64);
    v + 1
}

// How many letters the record gives, of those that are owed.
#[tactic(auto, unfolding(form::specs::Steps::letters_given, form::specs::Form::body_len))]
fn letters_given(kind: Kind, left: u32) -> u32
    ensures { (result ≡ letters_given kind left) × ((result ≤ letters_len) × (result ≤ body_len kind)) }
{
    match kind {
        Kind::Letters => left.min(LETTERS_EACH),
        _ => 0,
    }
}

// How many letters are owed behind a record that announces `count`.
#[tactic(auto, unfolding(form::specs::Steps::letters_owed))]
fn letters_owed(kind: Kind, count: u32, left: u32) -> u32
    ensures { result ≡ letters_owed kind count left }
{
    match kind {
        Kind::Letters => left.saturating_sub(LETTERS_EACH),
        _ => count,
    }
}

// The first n letters of a letters record's body, from position `at` on.
fn copy_letters(out: &mut [u8], at: usize, b: &[u8], n: usize)
    requires { (at < 2 ^ 63) × (n ≤ letters_len) }
    ensures { out.new ≡ stores set out.old at (letters_in (letters_kind ∷ b.now) 0 n) }
{
    for i in 0..n {
        put_u8(out, at + i, u8_at(b, i));
    }
}

// The letters that one record gives, from position `at` on. Returns the position behind them.
fn fill_letters(kind: Kind, b: &[u8], at: usize, left: u32, out: &mut [u8]) -> usize
    requires { at < 2 ^ 63 }
    ensures is { out.new ≡ stores set out.old at (letters_in (letters_kind ∷ b.now) 0 (letters_given kind left)) }
    ensures next { (result ≡ at + letters_given kind left) × (result ≤ at + body_len kind) }
{
    let n = letters_given(kind, left) as usize;
    copy_letters(out, at, b, n);
    at + n
}

// Lays the variants, the parts, the breaks and the letters at the fronts of the slices, in one walk over the records.
pub(crate) fn fill(
    s: &[u8],
    starts: &mut [u64],
    ends: &mut [u64],
    sizes: &mut [i32],
    negatives: &mut [bool],
    counts: &mut [u32],
    part_sizes: &mut [i32],
    part_negatives: &mut [bool],
    part_counts: &mut [u32],
    breaks: &mut [u64],
    letters: &mut [u8],
)
    ensures variants { rows starts.new ends.new sizes.new negatives.new counts.new
        ≡ stores put_row (rows starts.old ends.old sizes.old negatives.old counts.old)
        0 (gather variant_here s.now 0) }
    ensures parts { part_rows part_sizes.new part_negatives.new part_counts.new
        ≡ stores put_part (part_rows part_sizes.old part_negatives.old part_counts.old) 0 (gather part_here s.now 0) }
    ensures begins { breaks.new ≡ stores set breaks.old 0 (breaks_walk s.now 0 0) }
    ensures sequence { letters.new ≡ stores set letters.old 0 (letters_walk s.now 0 0) }
{
    let mut at = 0usize;
    let mut v = 0usize;
    let mut p = 0usize;
    let mut n = 0usize;
    let mut l = 0usize;
    let mut left = 0u32;
    while at < s.len() {
        let here = record_at(s, at);
        let kind = here.kind;
        let b = &s[at + 1..];
        v = fill_variant(kind, b, v, starts, ends, sizes, negatives, counts);
        n = fill_break(kind, p, n, breaks);
        p = fill_part(kind, b, p, part_sizes, part_negatives, part_counts);
        l = fill_letters(kind, b, l, left, letters);
        left = letters_owed(kind, here.count, left);
        at = here.next;
    }
}
