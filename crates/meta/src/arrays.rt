// Eight entries joined to eight: the first n of them, those behind stay the left's own.
ghost use Rattle.std.specs.Prelude.{◌≡◌, ℕ, ◌<◌, ◌≤◌, get_or};
ghost use Rattle.meta.specs.Meta.{joined_first, left_else_right, sum_passes};

// Whether the sum of two of the first n entries passes 64 bits.
pub(crate) fn sum_passes(n: usize, a: &[u64; 8], b: &[u64; 8]) -> bool
    requires { n ≤ 8 }
    ensures { result ≡ sum_passes n a.now b.now }
{
    for i in 0..n {
        if a[i].checked_add(b[i]).is_none() {
            return true;
        }
    }
    false
}

// The first n joined by f, for each function g that f computes there.
pub(crate) fn joined_first<F: Fn(u64, u64) -> u64>(
    n: usize,
    a: [u64; 8],
    b: [u64; 8],
    f: F,
) -> [u64; 8]
    requires inside { n ≤ 8 }
    requires callable { (i : ℕ) → i < n → F.pre f (get_or a i 0) (get_or b i 0) }
    ensures { (g : ℕ → ℕ → ℕ) → ((i : ℕ) (x : _) → i < n → F.post f (get_or a i 0) (get_or b i 0) x → x ≡ g (get_or a i 0) (get_or b i 0)) → result ≡ joined_first g n a b }
{
    let mut joined = a;
    for i in 0..n {
        joined[i] = f(a[i], b[i]);
    }
    joined
}

pub(crate) fn left_else_right(x: u64, y: u64) -> u64
    ensures { result ≡ left_else_right x y }
{
    if x == 0 { y } else { x }
}
