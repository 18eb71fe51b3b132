// The walks over a job's records: its record numbers, and each record as an edition has it.
ghost use Rattle.std.specs.Prelude.{◌≡◌, ◌≤◌, ◌<◌, ◌+◌, ◌^◌, length, take};
ghost use Rattle.form.specs.Job.{gather, number_here};
ghost use Rattle.editions.specs.Moving.{settings_byte, variant_byte, byte_in, shared_len, added_in, record_in, next_row, moved, off_row};
ghost use Rattle.editions.specs.Steps.{has_number, Put};

use fields::{put_u8, put_u32, u32_at};
use form::records::{
    Edition, Kind, LETTERS_BODY, NUMBER_PLACE, PART_BODY, SETTINGS, SETTINGS_BODY, SETTINGS2,
    VARIANT, VARIANT_BODY, VARIANT2, VARIANT2_BODY, kind_of, record_at,
};

fn settings_byte(edition: Edition) -> u8
    ensures { result ≡ settings_byte edition }
{
    match edition {
        Edition::One => SETTINGS,
        Edition::Two => SETTINGS2,
    }
}

fn variant_byte(edition: Edition) -> u8
    ensures { result ≡ variant_byte edition }
{
    match edition {
        Edition::One => VARIANT,
        Edition::Two => VARIANT2,
    }
}

#[tactic(auto, unfolding(crate::specs::Moving::byte_in))]
fn byte_in(edition: Edition, byte: u8) -> u8
    ensures { result ≡ byte_in edition byte }
{
    match kind_of(byte) {
        Kind::Settings | Kind::Settings2 => settings_byte(edition),
        Kind::Variant | Kind::Variant2 => variant_byte(edition),
        _ => byte,
    }
}

// How much of a body both editions have.
#[tactic(auto, unfolding(crate::specs::Moving::shared_len, form::specs::Form::body_len))]
fn shared_len(kind: Kind) -> usize
    ensures { result ≡ shared_len kind }
{
    match kind {
        Kind::Settings | Kind::Settings2 => SETTINGS_BODY,
        Kind::Variant | Kind::Variant2 => VARIANT_BODY,
        Kind::Part => PART_BODY,
        Kind::Letters => LETTERS_BODY,
        Kind::Next | Kind::End | Kind::Unknown => 0,
    }
}

#[tactic(auto, unfolding(crate::specs::Moving::next_row))]
fn row_after(kind: Kind, row: usize) -> usize
    requires { row < 2 ^ 63 }
    ensures { (result ≡ next_row kind row) × (result ≤ row + 1) }
{
    match kind {
        Kind::Variant | Kind::Variant2 => row + 1,
        _ => row,
    }
}

// Whether a record with b from its body on is a whole variant of edition 2: it has a record number.
#[tactic(auto, unfolding(crate::specs::Steps::has_number, form::specs::Form::body_len))]
fn numbered(kind: Kind, b: &[u8]) -> bool
    ensures { result ≡ has_number kind b.now }
{
    matches!(kind, Kind::Variant2) && VARIANT2_BODY <= b.len()
}

#[tactic(auto, using(crate::proofs::WalkLaws::off_none, crate::proofs::WalkLaws::off_some))]
fn number_off(kind: Kind, b: &[u8], row: usize) -> bool
    ensures { result ≡ off_row row (number_here kind b.now) }
{
    numbered(kind, b) && u32_at(b, NUMBER_PLACE) as usize != row
}

// The row behind a record.
fn row_behind(kind: Kind, b: &[u8], row: usize) -> usize
    requires { row < 2 ^ 63 }
    ensures { (result ≡ row + length (number_here kind b.now)) × (result ≤ row + 1) }
{
    if numbered(kind, b) { row + 1 } else { row }
}

// Whether a record number of edition 2 is not its row.
pub(crate) fn off_row(s: &[u8]) -> bool
    ensures { result ≡ off_row 0 (gather number_here s.now 0) }
{
    let mut at = 0usize;
    let mut row = 0usize;
    while at < s.len() {
        let here = record_at(s, at);
        let kind = here.kind;
        let b = &s[at + 1..];
        if number_off(kind, b, row) {
            return true;
        }
        row = row_behind(kind, b, row);
        at = here.next;
    }
    false
}

// The first n bytes of b, from position `at` on. Returns the position behind them. One by one: copy_from_slice would need memmove from outside the archive.
fn copy(b: &[u8], n: usize, out: &mut [u8], at: usize) -> usize
    requires { (n ≤ length b.now) × (at + n ≤ length out.old) }
    ensures { Put out.old out.new at result (take n b.now) }
{
    for i in 0..n {
        out[at + i] = b[i];
    }
    at + n
}

// What edition 2 has behind the shared bytes, from position `at` on. Returns the position behind it.
#[tactic(auto, using(crate::proofs::WalkLaws::word_bytes, fields::proofs::FieldLaws::long4), unfolding(crate::specs::Moving::added_in))]
fn lay_added(edition: Edition, kind: Kind, row: usize, out: &mut [u8], at: usize) -> usize
    requires { at < 2 ^ 63 }
    ensures { Put out.old out.new at result (added_in edition kind row) }
{
    match (edition, kind) {
        (Edition::Two, Kind::Settings | Kind::Settings2) => {
            put_u8(out, at, 0);
            at + 1
        }
        (Edition::Two, Kind::Variant | Kind::Variant2) => {
            put_u32(out, at, (row % 4294967296) as u32);
            at + 4
        }
        _ => at,
    }
}

// One record as an edition has it, from position `at` on: the kind, what both editions have of the body, and what edition 2 has behind it.
fn lay_record(edition: Edition, byte: u8, b: &[u8], row: usize, out: &mut [u8], at: usize) -> usize
    requires { at + length (record_in edition byte b.now row) ≤ length out.old }
    ensures { Put out.old out.new at result (record_in edition byte b.now row) }
{
    let kind = kind_of(byte);
    put_u8(out, at, byte_in(edition, byte));
    let end = copy(b, shared_len(kind).min(b.len()), out, at + 1);
    lay_added(edition, kind, row, out, end)
}

// Every record of s as an edition has it, to the front of `out`. Returns how many bytes.
pub(crate) fn lay_records(s: &[u8], edition: Edition, out: &mut [u8]) -> usize
    requires { length (moved edition s.now) ≤ length out.old }
    ensures { Put out.old out.new 0 result (moved edition s.now) }
{
    let mut at = 0usize;
    let mut end = 0usize;
    let mut row = 0usize;
    while at < s.len() {
        let here = record_at(s, at);
        let kind = here.kind;
        let b = &s[at + 1..];
        end = lay_record(edition, s[at], b, row, out, end);
        row = row_after(kind, row);
        at = here.next;
    }
    end
}
