// Little-endian fields of a slice. Past its end a byte is read as 0 and none is stored.
#![tactic(auto)]

ghost use Rattle.std.specs.Prelude.{◌≡◌, ℕ, ◌+◌, ◌<◌, get_or};
ghost use Rattle.std.proofs.lemmas.List.Edits.{sets};
ghost use Rattle.fields.specs.Promises.{U8AtPromise, U32AtPromise, U64AtPromise, I32OfPromise, U32OfPromise, FloatOfPromise, PutU8Promise, PutU32Promise, PutU64Promise};

pub fn u8_at(s: &[u8], at: usize) -> u8
    ensures { U8AtPromise s.now at result }
{
    s.get(at).copied().unwrap_or(0)
}

// The bytes from `at` on, 0 past the end.
fn bytes_at<const N: usize>(s: &[u8], at: usize) -> [u8; N]
    ensures { (i : ℕ) → i < N → get_or result i 0 ≡ get_or s.now (at + i) 0 }
{
    let rest = s.get(at..).unwrap_or(&[]);
    std::array::from_fn(|i| u8_at(rest, i))
}

pub fn u32_at(s: &[u8], at: usize) -> u32
    ensures { U32AtPromise s.now at result }
{
    u32::from_le_bytes(bytes_at(s, at))
}

pub fn u64_at(s: &[u8], at: usize) -> u64
    ensures { U64AtPromise s.now at result }
{
    u64::from_le_bytes(bytes_at(s, at))
}

// The signed number of 32 bits.
#[tactic(auto, unfolding(crate::specs::Fields::signed_of))]
pub fn i32_of(x: u32) -> i32
    ensures { I32OfPromise x result }
{
    x.cast_signed()
}

// The 32 bits of a signed number.
#[tactic(auto, unfolding(crate::specs::Fields::word_of))]
pub fn u32_of(z: i32) -> u32
    ensures { U32OfPromise z result }
{
    z.cast_unsigned()
}

// The float of a pattern: one NaN for every NaN pattern.
pub fn float_of(n: u32) -> f32
    ensures { FloatOfPromise n result }
{
    if 2139095040 < n % 2147483648 {
        f32::NAN
    } else {
        f32::from_bits(n)
    }
}

pub fn put_u8(out: &mut [u8], at: usize, x: u8)
    ensures { PutU8Promise out.old at x out.new }
{
    if at < out.len() {
        out[at] = x;
    }
}

#[tactic(auto, using(crate::proofs::FieldLaws::sets_past))]
fn put(out: &mut [u8], at: usize, bytes: &[u8])
    ensures { out.new ≡ sets out.old at bytes.now }
{
    // so that the number of each place fits
    if out.len() <= at {
        return;
    }
    for (i, byte) in bytes.iter().enumerate() {
        put_u8(out, at + i, *byte);
    }
}

#[tactic(auto, using(crate::proofs::FieldLaws::four_bytes))]
pub fn put_u32(out: &mut [u8], at: usize, x: u32)
    ensures { PutU32Promise out.old at x out.new }
{
    put(out, at, &u32::to_le_bytes(x));
}

#[tactic(auto, using(crate::proofs::FieldLaws::eight_bytes))]
pub fn put_u64(out: &mut [u8], at: usize, x: u64)
    ensures { PutU64Promise out.old at x out.new }
{
    put(out, at, &u64::to_le_bytes(x));
}
