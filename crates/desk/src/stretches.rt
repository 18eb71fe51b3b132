// Where each haplotype's parts stand among those of all.
ghost use Rattle.std.specs.Prelude.{◌≡◌, ◌≤◌, length, get_or};
ghost use Rattle.desk.specs.Memory.{ends_of, Rising, overlong};

// Where the parts of haplotype i end, of `all`.
pub(crate) fn stretch_end(breaks: &[u64], i: usize, all: usize) -> usize
    requires { i ≤ length breaks.now }
    ensures { result ≡ get_or (ends_of breaks.now all) i 0 }
{
    breaks.get(i).map_or(all, |end| *end as usize)
}

// Whether a haplotype has over 8 parts.
pub(crate) fn over_parts(breaks: &[u64], all: usize) -> bool
    requires { Rising all 0 (ends_of breaks.now all) }
    ensures { result ≡ overlong 0 (ends_of breaks.now all) }
{
    let mut from = 0;
    for i in 0..=breaks.len() {
        let to = stretch_end(breaks, i, all);
        if 8 < to - from {
            return true;
        }
        from = to;
    }
    false
}
