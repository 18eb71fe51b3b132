// A binary heap of numbers at the front of a lent slice: the places below place i are 2i + 1 and 2i + 2, and no key is less than the
// one above it. A key that goes in or moves is not stored on its way: a hole goes up or down, and the key fills it at the end.
ghost use Rattle.std.specs.Prelude.{◌≡◌, ◌+◌, ◌*◌, ◌<◌, ◌≤◌, [], ◌∷◌, ◌++◌, length, get_or, set, take};
ghost use Rattle.paths.specs.Heap.{Ordered, Heap, Taken, LeastBelow};

// Puts a key to the n that are there.
pub(crate) fn put_key(keys: &mut [u64], n: usize, key: u64)
    requires { (n < length keys.old) × Ordered keys.old n }
    ensures { Heap keys.new (n + 1) (take n keys.old ++ (key ∷ [])) }
{
    let mut i = n;
    while i > 0 {
        let p = (i - 1) / 2;
        let above = keys[p];
        if above <= key {
            keys[i] = key;
            return;
        }
        keys[i] = above;
        i = p;
    }
    keys[i] = key;
}

// The place of the least of the keys right below place i.
fn least_below(keys: &[u64], n: usize, i: usize) -> usize
    requires { (n ≤ length keys.now) × (2 * i + 1 < n) }
    ensures { LeastBelow keys.now n i result }
{
    let left = 2 * i + 1;
    let right = left + 1;
    if right == n {
        return left;
    }
    if keys[right] < keys[left] {
        return right;
    }
    left
}

// Puts a key in the place of the front one of n keys.
fn replace_front(keys: &mut [u64], n: usize, key: u64)
    requires { (0 < n) × (n ≤ length keys.old) × Ordered keys.old n }
    ensures { Heap keys.new n (take n (set keys.old 0 key)) }
{
    let mut i: usize = 0;
    while 2 * i + 1 < n {
        let c = least_below(keys, n, i);
        let below = keys[c];
        if key <= below {
            keys[i] = key;
            return;
        }
        keys[i] = below;
        i = c;
    }
    keys[i] = key;
}

// Takes the least of n keys.
pub(crate) fn take_least(keys: &mut [u64], n: usize) -> u64
    requires { (0 < n) × (n ≤ length keys.old) × Ordered keys.old n }
    ensures { (result ≡ get_or keys.old 0 0) × Taken keys.old n keys.new }
{
    let least = keys[0];
    let last = n - 1;
    if last == 0 {
        return least;
    }
    let key = keys[last];
    replace_front(keys, last, key);
    least
}
