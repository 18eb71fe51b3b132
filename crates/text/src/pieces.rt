// Bytes and numbers, each stored from a place on, as far as the slice reaches. Each returns the place behind.
ghost use Rattle.std.specs.Prelude.{◌≡◌, [], ◌∷◌, ◌<◌};
ghost use Rattle.text.specs.Text.{hex_digit, hex2, hex4, hex8};
ghost use Rattle.text.specs.Written.{Written};
ghost use Rattle.text.specs.Promises.{PutBytesPromise, PutDigitsPromise};

// A byte past the end is dropped.
fn put_byte(out: &mut [u8], at: usize, x: u8) -> usize
    ensures { Written out.old at (x ∷ []) out.new result }
{
    if at < out.len() {
        out[at] = x;
        return at + 1;
    }
    at
}

pub fn put_bytes(out: &mut [u8], at: usize, src: &[u8]) -> usize
    ensures { PutBytesPromise out.old at src.now out.new result }
{
    let mut end = at;
    for x in src {
        end = put_byte(out, end, *x);
    }
    end
}

#[tactic(auto, unfolding(crate::specs::Text::hex_digit))]
fn hex_digit(d: u32) -> u8
    requires { d < 16 }
    ensures { result ≡ hex_digit d }
{
    if d < 10 {
        b'0' + d as u8
    } else {
        b'a' - 10 + d as u8
    }
}

fn put_hex2(out: &mut [u8], at: usize, x: u32) -> usize
    requires { x < 256 }
    ensures { Written out.old at (hex2 x) out.new result }
{
    let a = put_byte(out, at, hex_digit(x / 16));
    put_byte(out, a, hex_digit(x % 16))
}

fn put_hex4(out: &mut [u8], at: usize, x: u32) -> usize
    requires { x < 65536 }
    ensures { Written out.old at (hex4 x) out.new result }
{
    let a = put_hex2(out, at, x / 256);
    put_hex2(out, a, x % 256)
}

pub(crate) fn put_hex8(out: &mut [u8], at: usize, x: u32) -> usize
    ensures { Written out.old at (hex8 x) out.new result }
{
    let a = put_hex4(out, at, x / 65536);
    put_hex4(out, a, x % 65536)
}

// The digits of n, at most `left` of them.
pub fn put_digits(out: &mut [u8], at: usize, n: u64, left: usize) -> usize
    ensures { PutDigitsPromise out.old at n left out.new result }
{
    if left == 0 {
        return at;
    }
    if n < 10 {
        return put_byte(out, at, b'0' + n as u8);
    }
    let a = put_digits(out, at, n / 10, left - 1);
    put_byte(out, a, b'0' + (n % 10) as u8)
}
