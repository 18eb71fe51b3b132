// The form's records and their faults, front to back.
ghost use Rattle.std.specs.Prelude.{◌≡◌, [], ◌≤◌, ◌+◌, ◌^◌, length, drop, take};
ghost use Rattle.metrics.specs.Refusals.{told};
ghost use Rattle.form.specs.Form.{shape_of, body_len, in_place, are_flags, flags_ok, count_of, all_zero, pad_ok, too_many, fault_of, outset, run};
ghost use Rattle.form.specs.declared.records.Kind.TheVariants.{Letters};
ghost use Rattle.form.specs.Steps.{Follows, Small};
ghost use Rattle.form.specs.Promises.{KindOfPromise, BodyLenPromise, RecordAtPromise, EditionOfPromise};

use fields::{u8_at, u32_at};
use metrics::refusals::Refusal;

// What is known between two records: which kinds may follow, how many letters are owed, and the counts so far.
// The phase is a number and the counts stand one by one because the form's definition (specs/Form.antt) has them so: 0 is before the settings, 1 and 3 are where
// variants of edition 1 and of edition 2 may follow, and 2 is where no variant may.
#[derive(Clone, Copy)]
pub struct State {
    pub phase: u8,
    pub left: u32,
    pub variants: usize,
    pub parts: usize,
    pub breaks: usize,
    pub letters: usize,
}

#[derive(Clone, Copy)]
pub struct Counts {
    pub variants: usize,
    pub parts: usize,
    pub breaks: usize,
    pub letters: usize,
}

#[derive(Clone, Copy)]
pub enum Kind {
    End,
    Settings,
    Variant,
    Part,
    Letters,
    Next,
    Settings2,
    Variant2,
    Unknown,
}

// Of the form: which kinds of settings and of variants a job has.
#[derive(Clone, Copy)]
pub enum Edition {
    One,
    Two,
}

// A record's kind, how many letters it announces, and where the next one begins.
#[derive(Clone, Copy)]
pub struct Record {
    pub kind: Kind,
    pub count: u32,
    pub next: usize,
}

// the byte that begins a record
pub const END: u8 = 0;

pub const SETTINGS: u8 = 1;

pub const VARIANT: u8 = 2;

pub const PART: u8 = 3;

pub const LETTERS: u8 = 4;

pub const NEXT: u8 = 5;
// edition 2's settings and its variant
pub const SETTINGS2: u8 = 17;

pub const VARIANT2: u8 = 18;
// what one sequence may have
pub const MOST_LETTERS: u32 = 131072;
// of a job's 16 haplotypes all but the first begin with a record of their own
pub const MOST_BREAKS: usize = 15;
// how long a kind's body is
pub const SETTINGS_BODY: usize = 40;

pub const VARIANT_BODY: usize = 25;

pub const PART_BODY: usize = 9;

pub const LETTERS_BODY: usize = 16;

pub const SETTINGS2_BODY: usize = 41;

pub const VARIANT2_BODY: usize = 29;
// how many letters a record has, at most
pub const LETTERS_EACH: u32 = LETTERS_BODY as u32;
// the kind's byte and the body
pub const SETTINGS_RECORD: usize = 1 + SETTINGS_BODY;

pub const VARIANT_RECORD: usize = 1 + VARIANT_BODY;

pub const PART_RECORD: usize = 1 + PART_BODY;

pub const LETTERS_RECORD: usize = 1 + LETTERS_BODY;

pub const SETTINGS2_RECORD: usize = 1 + SETTINGS2_BODY;

pub const VARIANT2_RECORD: usize = 1 + VARIANT2_BODY;

// where the flag of a variant and of a part stands, and their letter count
pub const VARIANT_FLAG: usize = 20;

pub const VARIANT_COUNT: usize = 21;

pub const PART_FLAG: usize = 4;

pub const PART_COUNT: usize = 5;
// where edition 2's settings have `letters`, and its variant the record number: behind the old bytes
pub const LETTERS_PLACE: usize = SETTINGS_BODY;

pub const NUMBER_PLACE: usize = VARIANT_BODY;

// A kind's shape: how long its body is, from which byte on how many are flags, where the letter count stands, 0 where it has none, and how many flags stand at LETTERS_PLACE.
#[derive(Clone, Copy)]
pub struct Shape {
    pub body: usize,
    pub flags: usize,
    pub flag_count: usize,
    pub count: usize,
    pub late_flags: usize,
}

// The kind that a record's first byte says.
#[tactic(auto, unfolding(crate::specs::Form::kind_of))]
pub fn kind_of(byte: u8) -> Kind
    ensures { KindOfPromise byte result }
{
    match byte {
        END => Kind::End,
        SETTINGS => Kind::Settings,
        VARIANT => Kind::Variant,
        PART => Kind::Part,
        LETTERS => Kind::Letters,
        NEXT => Kind::Next,
        SETTINGS2 => Kind::Settings2,
        VARIANT2 => Kind::Variant2,
        _ => Kind::Unknown,
    }
}

// of a record that is its first byte alone
const NO_BODY: Shape = Shape {
    body: 0,
    flags: 0,
    flag_count: 0,
    count: 0,
    late_flags: 0,
};

// The one table of kinds.
fn shape_of(kind: Kind) -> Shape
    ensures { result ≡ shape_of kind }
{
    match kind {
        Kind::Settings => Shape {
            body: SETTINGS_BODY,
            flags: 1,
            flag_count: 3,
            ..NO_BODY
        },
        Kind::Settings2 => Shape {
            body: SETTINGS2_BODY,
            flags: 1,
            flag_count: 3,
            late_flags: 1,
            ..NO_BODY
        },
        Kind::Variant => Shape {
            body: VARIANT_BODY,
            flags: VARIANT_FLAG,
            flag_count: 1,
            count: VARIANT_COUNT,
            ..NO_BODY
        },
        Kind::Variant2 => Shape {
            body: VARIANT2_BODY,
            flags: VARIANT_FLAG,
            flag_count: 1,
            count: VARIANT_COUNT,
            ..NO_BODY
        },
        Kind::Part => Shape {
            body: PART_BODY,
            flags: PART_FLAG,
            flag_count: 1,
            count: PART_COUNT,
            ..NO_BODY
        },
        Kind::Letters => Shape {
            body: LETTERS_BODY,
            ..NO_BODY
        },
        Kind::Next | Kind::End | Kind::Unknown => NO_BODY,
    }
}

// How long a kind's body is; 0 where it has none or is unknown.
#[tactic(auto, unfolding(crate::specs::Form::body_len))]
pub fn body_len(kind: Kind) -> usize
    ensures { BodyLenPromise kind result }
{
    shape_of(kind).body
}

// The first record decides the edition.
pub fn edition_of(s: &[u8]) -> Edition
    ensures { EditionOfPromise s.now result }
{
    match kind_of(u8_at(s, 0)) {
        Kind::Settings2 | Kind::Variant2 => Edition::Two,
        _ => Edition::One,
    }
}

#[tactic(auto, unfolding(crate::specs::Form::in_place))]
fn in_place(st: State, kind: Kind) -> bool
    ensures { result ≡ in_place st kind }
{
    match kind {
        Kind::Letters => 0 < st.left,
        Kind::Settings | Kind::Settings2 => st.left == 0 && st.phase == 0,
        Kind::Variant => st.left == 0 && st.phase == 1,
        Kind::Variant2 => st.left == 0 && st.phase == 3,
        Kind::Part | Kind::Next | Kind::End => st.left == 0 && 0 < st.phase,
        Kind::Unknown => false,
    }
}

// Whether n bytes from a place on are flags.
#[tactic(auto, using(crate::proofs::FormLaws::flag_more))]
pub(crate) fn are_flags(b: &[u8], from: usize, n: usize) -> bool
    requires { from + n ≤ 64 }
    ensures { result ≡ are_flags b.now from n }
{
    for i in 0..n {
        if 2 <= u8_at(b, from + i) {
            return false;
        }
    }
    true
}

#[tactic(auto, unfolding(crate::specs::Form::flags_ok))]
fn flags_ok(kind: Kind, b: &[u8]) -> bool
    ensures { result ≡ flags_ok kind b.now }
{
    let s = shape_of(kind);
    are_flags(b, s.flags, s.flag_count) && are_flags(b, LETTERS_PLACE, s.late_flags)
}

// How many letters a record with b from its body on announces.
#[tactic(auto, unfolding(crate::specs::Form::count_of))]
fn count_of(kind: Kind, b: &[u8]) -> u32
    ensures { result ≡ count_of kind b.now }
{
    let s = shape_of(kind);
    if s.count == 0 {
        return 0;
    }
    u32_at(b, s.count)
}

// The record at a place: one step of every walk over a form. Behind the last byte there is none, and the step goes nowhere.
pub fn record_at(s: &[u8], at: usize) -> Record
    ensures { RecordAtPromise s.now at result }
{
    if s.len() <= at {
        return Record {
            kind: Kind::Unknown,
            count: 0,
            next: at,
        };
    }
    let kind = kind_of(s[at]);
    Record {
        kind,
        count: count_of(kind, &s[at + 1..]),
        next: at + 1 + body_len(kind),
    }
}

fn all_zero(b: &[u8], from: usize, to: usize) -> bool
    requires { to ≤ length b.now }
    ensures { result ≡ all_zero (drop from (take to b.now)) }
{
    for i in from..to {
        if b[i] != 0 {
            return false;
        }
    }
    true
}

#[tactic(auto, unfolding(crate::specs::Form::pad_ok, crate::specs::Form::body_len))]
fn pad_ok(st: State, kind: Kind, b: &[u8]) -> bool
    requires { body_len kind ≤ length b.now }
    ensures { result ≡ pad_ok st kind b.now }
{
    match kind {
        Kind::Letters => all_zero(b, st.left as usize, LETTERS_BODY),
        _ => true,
    }
}

#[tactic(auto, unfolding(crate::specs::Form::too_many))]
fn too_many(st: State, kind: Kind) -> bool
    ensures { result ≡ too_many st kind }
{
    matches!(kind, Kind::Next) && MOST_BREAKS <= st.breaks
}

#[tactic(auto, unfolding(crate::specs::Form::fault_of))]
fn fault_of(st: State, kind: Kind, b: &[u8]) -> Result<(), Refusal>
    ensures { told result ≡ fault_of st kind b.now }
{
    if matches!(kind, Kind::Unknown) {
        return Err(Refusal::UnknownKind);
    }
    if b.len() < body_len(kind) {
        return Err(Refusal::CutShort);
    }
    if !in_place(st, kind) {
        return Err(Refusal::OutOfPlace);
    }
    if too_many(st, kind) {
        return Err(Refusal::TooManyHaplotypes);
    }
    if !flags_ok(kind, b) {
        return Err(Refusal::BadFlag);
    }
    if MOST_LETTERS < count_of(kind, b) {
        return Err(Refusal::TooManyLetters);
    }
    if !pad_ok(st, kind, b) {
        return Err(Refusal::BadPadding);
    }
    if matches!(kind, Kind::End) && !b.is_empty() {
        return Err(Refusal::BytesAfterEnd);
    }
    Ok(())
}

#[tactic(auto, unfolding(crate::specs::Form::after, crate::specs::Form::body_len))]
fn after_letters(st: State) -> State
    requires { st.letters ≤ 2 ^ 63 }
    ensures { Follows st Letters [] result }
{
    let given = st.left.min(LETTERS_EACH);
    State {
        left: st.left - given,
        letters: st.letters + given as usize,
        ..st
    }
}

#[tactic(auto, unfolding(crate::specs::Form::after, crate::specs::Form::body_len))]
fn after_record(st: State, kind: Kind, b: &[u8]) -> State
    requires { (body_len kind ≤ length b.now) × Small st (2 ^ 63) }
    ensures { Follows st kind b.now result }
{
    let next = State {
        left: count_of(kind, b),
        ..st
    };
    match kind {
        Kind::Letters => after_letters(st),
        Kind::Settings => State { phase: 1, ..next },
        Kind::Settings2 => State { phase: 3, ..next },
        Kind::Variant | Kind::Variant2 => State {
            variants: st.variants + 1,
            ..next
        },
        Kind::Part => State {
            phase: 2,
            parts: st.parts + 1,
            ..next
        },
        Kind::Next => State {
            phase: 2,
            breaks: st.breaks + 1,
            ..next
        },
        Kind::End | Kind::Unknown => next,
    }
}

pub(crate) fn first_fault(s: &[u8]) -> Result<Counts, Refusal>
    ensures { result ≡ run s.now 0 outset }
{
    let mut st = State {
        phase: 0,
        left: 0,
        variants: 0,
        parts: 0,
        breaks: 0,
        letters: 0,
    };
    let mut at = 0usize;
    while at < s.len() {
        let here = record_at(s, at);
        let kind = here.kind;
        let b = &s[at + 1..];
        fault_of(st, kind, b)?;
        if matches!(kind, Kind::End) {
            return Ok(Counts {
                variants: st.variants,
                parts: st.parts,
                breaks: st.breaks,
                letters: st.letters,
            });
        }
        st = after_record(st, kind, b);
        at = here.next;
    }
    Err(Refusal::CutShort)
}
