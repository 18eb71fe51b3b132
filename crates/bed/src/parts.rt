// Stretches of a text, and the number that digits say.
ghost use Rattle.std.specs.Prelude.{◌≡◌, ◌+◌, ◌-◌, ◌*◌, length};
ghost use Rattle.bed.specs.Reading.{up_to, behind_first, value_of};
ghost use Rattle.bed.specs.Steps.{first_line, Reads64};

// How many bytes stand before the first byte b.
fn up_to(s: &[u8], b: u8) -> usize
    ensures { result ≡ length (up_to b s.now) }
{
    for (i, x) in s.iter().enumerate() {
        if *x == b {
            return i;
        }
    }
    s.len()
}

pub(crate) fn first(s: &[u8], b: u8) -> &[u8]
    ensures { result.now ≡ up_to b s.now }
{
    &s[..up_to(s, b)]
}

pub(crate) fn behind(s: &[u8], b: u8) -> &[u8]
    ensures { result.now ≡ behind_first b s.now }
{
    let n = up_to(s, b);
    if n < s.len() {
        let from = n + 1;
        return &s[from..];
    }
    &s[..0]
}

// How long the first line is, with its newline.
pub(crate) fn line_len(s: &[u8]) -> usize
    ensures { result ≡ length (first_line s.now) }
{
    s.len().min(up_to(s, b'\n') + 1)
}

// One digit more. Where the number does not fit, the result is of no use.
fn grow(v: u64, x: u8) -> u64
    ensures { Reads64 (v * 10 + (x - 48)) result }
{
    let d = x.saturating_sub(b'0');
    v.wrapping_mul(10).wrapping_add(d as u64)
}

pub(crate) fn value(digits: &[u8]) -> u64
    ensures { Reads64 (value_of digits.now) result }
{
    let mut v = 0;
    for x in digits {
        v = grow(v, *x);
    }
    v
}
