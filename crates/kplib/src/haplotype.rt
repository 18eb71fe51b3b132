// The part lists of a haplotype, laid down once a search as codes and sizes (haplotype.rs).
ghost use Rattle.std.specs.Prelude.{◌≡◌, ◌/◌, ◌≤◌, ◌<◌, pos, nat_abs, ◌+ℤ◌, length, get_or, take};
ghost use Rattle.params.specs.Checked.{Sized};
ghost use Rattle.kplib.specs.Parts.{whole_of, lengths_of};
ghost use Rattle.kplib.specs.Sums.{size_of};
ghost use Rattle.kplib.specs.Scoring.{positions_of_bits, list_of_code, Choosing, Chosen, LayingLengths, LaidLengths, Layable, LaidDown};

use params::Settings;

// How many lengths of part lists there are, where there are more than the whole haplotype.
fn lengths_of(m: usize, fnmax: u32) -> usize
    requires { m ≤ 64 }
    ensures { (result ≡ lengths_of m fnmax) × (result ≤ m) }
{
    m.min(fnmax as usize + 1)
}

// A list's size with position p's added.
fn plus_part(size: i32, part_sizes: &[i32], p: usize) -> i32
    requires { (nat_abs size ≤ 8388608) × (p < length part_sizes.now) × (Sized part_sizes.now) }
    ensures { result ≡ size +ℤ get_or part_sizes.now p (pos 0) }
{
    size + part_sizes[p]
}

// A part list begun: the positions of `bits`, `count` of them and all before the next, whose bit is `bit`, and the sum of their sizes.
// Four words and no more, so that it is passed in registers.
#[derive(Clone, Copy)]
struct Begun {
    bit: u32,
    bits: u32,
    count: u32,
    size: i32,
}

// Lays down the lists that are begun so and go on with n positions from `next` on: those that take it, then those that do not.
// Returns the end.
fn lay_choices(
    sizes: &[i32],
    next: usize,
    begun: Begun,
    n: usize,
    at: usize,
    codes: &mut [u32],
    totals: &mut [i32],
) -> usize
    requires { Choosing next n begun.count begun.bits begun.bit at begun.size sizes.now codes.old totals.old }
    ensures { Chosen next n begun.bits at sizes.now codes.old codes.new totals.old totals.new result }
{
    if sizes.len() - next < n {
        return at;
    }
    if n == 0 {
        codes[at] = begun.bits + 65536 * begun.count;
        totals[at] = begun.size;
        return at + 1;
    }
    let passed = Begun {
        bit: begun.bit * 2,
        ..begun
    };
    let taken = Begun {
        bits: begun.bits + begun.bit,
        count: begun.count + 1,
        size: plus_part(begun.size, sizes, next),
        ..passed
    };
    let mid = lay_choices(sizes, next + 1, taken, n - 1, at, codes, totals);
    lay_choices(sizes, next + 1, passed, n, mid, codes, totals)
}

// Lays down the lists of m parts, then of m - 1, for so many lengths. Returns their number.
fn lay_lengths(
    part_sizes: &[i32],
    lengths: usize,
    codes: &mut [u32],
    list_sizes: &mut [i32],
) -> usize
    requires { LayingLengths part_sizes.now lengths codes.old list_sizes.old }
    ensures { LaidLengths part_sizes.now lengths codes.new list_sizes.new result }
{
    let m = part_sizes.len();
    let mut at: usize = 0;
    for i in 0..lengths {
        let none = Begun {
            bit: 1,
            bits: 0,
            count: 0,
            size: 0,
        };
        at = lay_choices(part_sizes, 0, none, m - i, at, codes, list_sizes);
    }
    at
}

// The size of the whole haplotype.
pub(crate) fn whole_size(part_sizes: &[i32]) -> i32
    requires { Sized part_sizes.now }
    ensures { result ≡ size_of part_sizes.now (whole_of (length part_sizes.now)) }
{
    let mut size: i32 = 0;
    for x in part_sizes {
        size += *x;
    }
    size
}

// Lays down the part lists in document 01's order and returns their number, at most 2,047: there are shorter lists only
// where m is below pileupmax, which is at most 12.
pub(crate) fn lay_lists(
    s: Settings,
    part_sizes: &[i32],
    codes: &mut [u32],
    list_sizes: &mut [i32],
) -> usize
    requires { Layable s part_sizes.now codes.old list_sizes.old }
    ensures { LaidDown s part_sizes.now codes.new list_sizes.new result }
{
    let m = part_sizes.len();
    if (s.pileupmax as usize) <= m {
        codes[0] = 65536 * (m as u32);
        list_sizes[0] = whole_size(part_sizes);
        return 1;
    }
    let lengths = lengths_of(m, s.fnmax);
    lay_lengths(part_sizes, lengths, codes, list_sizes)
}

// The positions of the bits set, at the front of `chosen`. Returns how many.
fn bit_positions(bits: u32, m: usize, chosen: &mut [u32]) -> usize
    requires { (m ≤ 64) × (m ≤ length chosen.old) }
    ensures { (result ≤ m) × (take result chosen.new ≡ positions_of_bits 0 m bits) }
{
    let mut v = bits;
    let mut d: usize = 0;
    for i in 0..m {
        chosen[d] = i as u32;
        d += (v % 2) as usize;
        v /= 2;
    }
    d
}

// The first m positions, at the front of `chosen`.
pub(crate) fn all_positions(m: usize, chosen: &mut [u32])
    requires { (m ≤ 64) × (m ≤ length chosen.old) }
    ensures { take m chosen.new ≡ whole_of m }
{
    for i in 0..m {
        chosen[i] = i as u32;
    }
}

// The positions of a laid list, at the front of `chosen`. Returns how many.
pub(crate) fn positions(code: u32, m: usize, chosen: &mut [u32]) -> usize
    requires { (code / 65536 ≤ m) × (m ≤ 64) × (m ≤ length chosen.old) }
    ensures { (result ≤ m) × (take result chosen.new ≡ list_of_code m code) }
{
    if code % 65536 == 0 {
        let n = (code / 65536) as usize;
        all_positions(n, chosen);
        return n;
    }
    bit_positions(code % 65536, m, chosen)
}
