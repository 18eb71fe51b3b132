// The score of a chain against the part lists of a haplotype (pathscore.rs).
ghost use Rattle.std.specs.Prelude.{◌≡◌, Some, ◌&&◌, ◌+◌, ◌*◌, ◌≤◌, min, eqb, nat_abs, length};
ghost use Rattle.metrics.specs.Similarity.{sizesim_value, seqsim_value, magnitude_sum};
ghost use Rattle.kplib.specs.Sums.{features_of};
ghost use Rattle.kplib.specs.Score.{seqsim_of_rows, gap_of, score_value, list_score, start, target_of, greater_of};
ghost use Rattle.kplib.specs.Told.{told_held};
ghost use Rattle.kplib.specs.Scoring.{Summable, Ready, Testable, Comparable, StandsFor, terms_of, may_score, may_win, verdict_of, Judgeable, Judged};
ghost use Rattle.kplib.specs.Scoring.{total_held, chain_total, coded_score, Attempt, Attempted, none_tried, Scorable};

use crate::haplotype::positions;
use crate::plan::Told;
use crate::sums::{Sums, block_end, sum_block, sum_features, weight_of};
use metrics::lanes::magnitude;
use params::Settings;

// Which part list matched; a partial one says how many parts it leaves out.
#[derive(Clone, Copy)]
pub enum Target {
    Nothing,
    Whole,
    Partial(u32),
}

#[derive(Clone, Copy)]
pub struct Scored {
    pub target: Target,
    pub score: f32,
    pub sizesim: f32,
    pub seqsim: f32,
}

// What a chain or a part list is scored by: its size, its feature row, and how many rows it has.
#[derive(Clone, Copy)]
pub(crate) struct Total<'a> {
    pub size: i32,
    pub features: &'a [i32],
    pub count: usize,
}

// A chain's rows, ascending, and its size.
#[derive(Clone, Copy)]
pub(crate) struct Chain<'a> {
    pub rows: &'a [u32],
    pub size: i32,
}

// A part list as it is laid down (haplotype.rs): its code, which is its length × 65,536 + its positions' bits, and its size.
#[derive(Clone, Copy)]
struct LaidList {
    code: u32,
    size: i32,
}

// What the tests before seqsim's look at: the sizes and lengths of a chain and of a list, and how many parts the list leaves out.
#[derive(Clone, Copy)]
struct Tested {
    chain_size: i32,
    chain_len: usize,
    list_size: i32,
    list_len: usize,
    partial: usize,
}

// What a part list scored against a chain.
#[derive(Clone, Copy)]
pub(crate) struct Scores {
    pub(crate) score: f32,
    pub(crate) sizesim: f32,
    pub(crate) seqsim: f32,
}

// The best so far and, once the chain's feature row is summed, what its magnitudes sum to.
#[derive(Clone, Copy)]
pub(crate) struct Best {
    scored: Scored,
    weight: Option<u32>,
}

// What a list's score depends on beside its seqsim, and what it must beat (`best`) and reach (`floor`).
#[derive(Clone, Copy)]
pub(crate) struct Terms {
    size: f32,
    partial: usize,
    gap: usize,
    floor: f32,
    best: f32,
}

// The scoring's start.
pub(crate) fn nothing() -> Scored
    ensures { result ≡ start }
{
    Scored {
        target: Target::Nothing,
        score: 0.0,
        sizesim: 0.0,
        seqsim: 0.0,
    }
}

// sizesim of two sizes that the lower crate does not refuse.
fn size_alike(a: i32, b: i32) -> f32
    requires { (nat_abs a ≤ 8388608) × (nat_abs b ≤ 8388608) }
    ensures { result ≡ sizesim_value (nat_abs a) (nat_abs b) }
{
    metrics::sizesim(magnitude(a) as u64, magnitude(b) as u64).unwrap_or(0.0)
}

// seqsim of two rows that the lower crate does not refuse.
fn seq_alike(a: &[i32], b: &[i32], minkfreq: u32) -> f32
    requires { (length a.now ≡ length b.now) × (magnitude_sum a.now ≤ 8388608) × (magnitude_sum b.now ≤ 8388608) × (minkfreq ≤ 16777216) }
    ensures { result ≡ seqsim_of_rows minkfreq a.now b.now }
{
    metrics::seqsim(a, b, minkfreq).unwrap_or(0.0)
}

fn gap_of(squish: bool, n: usize, len: usize) -> usize
    requires { (n ≤ 64) × (len ≤ 64) }
    ensures { (result ≡ gap_of squish n len) × (result ≤ 64) }
{
    if squish {
        len.saturating_sub(1)
    } else {
        n.abs_diff(len)
    }
}

fn score_value(s: Settings, seq: f32, size: f32, partial: usize, g: usize) -> f32
    requires { (partial ≤ 64) × (g ≤ 64) }
    ensures { result ≡ score_value s seq size partial g }
{
    (seq + size) / 2.0 - s.fpenalty * (partial as f32) - s.gpenalty * (g as f32)
}

// An empty chain under squish accepts no list.
fn accepts_none(squish: bool, len: usize) -> bool
    ensures { result ≡ (squish && eqb len 0) }
{
    squish && len == 0
}

// A list's score against a chain, both summed.
pub(crate) fn list_score(s: Settings, chain: Total, list: Total, partial: usize) -> Option<Scores>
    requires { Comparable s (total_held chain) (total_held list) partial }
    ensures { result ≡ list_score s (total_held chain.entry) (total_held list.entry) partial }
{
    if accepts_none(s.squish, chain.count) {
        return None;
    }
    if chain.size.signum() != list.size.signum() {
        return None;
    }
    let size = size_alike(chain.size, list.size);
    if size < s.sizesim {
        return None;
    }
    let seq = seq_alike(chain.features, list.features, s.minkfreq);
    if seq < s.seqsim {
        return None;
    }
    let g = gap_of(s.squish, list.count, chain.count);
    Some(Scores {
        score: score_value(s, seq, size, partial, g),
        sizesim: size,
        seqsim: seq,
    })
}

fn target_of(partial: usize) -> Target
    requires { partial ≤ 64 }
    ensures { result ≡ target_of partial }
{
    match partial {
        0 => Target::Whole,
        left_out => Target::Partial(left_out as u32),
    }
}

// The best, or the new one where it is greater.
pub(crate) fn greater_of(best: Scored, partial: usize, verdict: Option<Scores>) -> Scored
    requires { partial ≤ 64 }
    ensures { result ≡ greater_of best partial verdict }
{
    match verdict {
        Some(new) if best.score < new.score => Scored {
            target: target_of(partial),
            score: new.score,
            sizesim: new.sizesim,
            seqsim: new.seqsim,
        },
        _ => best,
    }
}

// The chain's row, summed at the first need of it, and what its magnitudes sum to.
fn ready(table: &[i32], chain: &[u32], row: &mut [i32], weight: Option<u32>) -> u32
    requires { (Summable (length row.old) table.now chain.now) × (Ready weight row.old (features_of (length row.old) table.now chain.now)) }
    ensures { Ready (Some result) row.new (features_of (length row.old) table.now chain.now) }
{
    match weight {
        Some(sum) => sum,
        None => {
            sum_features(table, chain, row);
            weight_of(row)
        }
    }
}

fn terms_of(s: Settings, tested: Tested, floor: f32, best: f32) -> Terms
    requires { Testable tested }
    ensures { (result ≡ terms_of s tested floor best) × (result.partial ≤ 64) × (result.gap ≤ 64) }
{
    Terms {
        size: size_alike(tested.chain_size, tested.list_size),
        partial: tested.partial,
        gap: gap_of(s.squish, tested.list_len, tested.chain_len),
        floor,
        best,
    }
}

// Whether a list whose seqsim is at most this could beat the best and reach the floor: with a greater seqsim it scores no less.
fn may_score(s: Settings, terms: Terms, seq: f32) -> bool
    requires { (terms.partial ≤ 64) × (terms.gap ≤ 64) }
    ensures { result ≡ may_score s terms seq }
{
    let bound = score_value(s, seq, terms.size, terms.partial, terms.gap);
    if bound < terms.floor {
        return false;
    }
    !(bound <= terms.best)
}

// Whether a list passes the tests before seqsim's and, were its seqsim 1.0, could win.
fn may_win(s: Settings, tested: Tested, floor: f32, best: f32) -> bool
    requires { Testable tested }
    ensures { result ≡ may_win s tested floor best }
{
    if accepts_none(s.squish, tested.chain_len) {
        return false;
    }
    if tested.chain_size.signum() != tested.list_size.signum() {
        return false;
    }
    let terms = terms_of(s, tested, floor, best);
    if terms.size < s.sizesim {
        return false;
    }
    may_score(s, terms, 1.0)
}

// What seqsim is at most where the chain's magnitudes sum to `weight` and n is at least this.
fn most_alike(weight: u32, n: u32) -> f32
    requires { (weight ≤ 8388608) × (n ≤ 16777216) }
    ensures { result ≡ seqsim_value (min (2 * weight + 1 + n) 16777216) n }
{
    metrics::similarity(2 * weight + 1 + n, n)
}

// The verdict by seqsim, where the tests before it are passed.
fn verdict_of(s: Settings, terms: Terms, seq: f32) -> Option<Scores>
    requires { (terms.partial ≤ 64) × (terms.gap ≤ 64) }
    ensures { result ≡ verdict_of s terms seq }
{
    if seq < s.seqsim {
        return None;
    }
    Some(Scores {
        score: score_value(s, seq, terms.size, terms.partial, terms.gap),
        sizesim: terms.size,
        seqsim: seq,
    })
}

// The verdict on a list that may win. Its rows are summed block by block; after each block, what n is so far bounds seqsim, and where that is below
// the threshold or cannot win the list is given up.
fn judge(
    s: Settings,
    table: &[i32],
    rows: &[u32],
    chain_row: &[i32],
    weight: u32,
    terms: Terms,
) -> Option<Scores>
    requires { Judgeable s table.now rows.now chain_row.now weight terms }
    ensures { let list = features_of (length chain_row.now) table.now rows.now in
        Judged s terms (seqsim_of_rows s.minkfreq chain_row.now list) result }
{
    let width = chain_row.len();
    let mut sums = Sums { d: 0, n: 0 };
    let mut from: usize = 0;
    // no index loop: it steps from block to block, the last of which is shorter
    while from < width {
        let to = block_end(from, width);
        sums = sum_block(sums, table, rows, chain_row, from, to, s.minkfreq);
        let most = most_alike(weight, sums.n);
        if most < s.seqsim {
            return None;
        }
        if !may_score(s, terms, most) {
            return None;
        }
        from = to;
    }
    verdict_of(s, terms, metrics::similarity(sums.d, sums.n))
}

// One laid list against the chain, in a search whose best is at `floor`. The scratch is the chain's row, once it is summed.
fn try_list(
    told: &Told,
    chain: Chain,
    list: LaidList,
    chosen: &mut [u32],
    scratch: &mut [i32],
    floor: f32,
    best: Best,
) -> Best
    requires { Attempt (told_held told.now) chain.rows.now chain.size list.code list.size chosen.old scratch.old best.weight }
    ensures { Attempted (told_held told.now) chain.entry.rows.now chain.entry.size list.code list.size floor best.scored result scratch.new }
{
    let s = told.plan.s;
    let m = told.plan.m;
    let old = best.scored;
    let list_len = (list.code / 65536) as usize;
    let tested = Tested {
        chain_size: chain.size,
        chain_len: chain.rows.len(),
        list_size: list.size,
        list_len,
        partial: m - list_len,
    };
    if !may_win(s, tested, floor, old.score) {
        return best;
    }
    let d = positions(list.code, m, chosen);
    let weight = ready(told.features, chain.rows, scratch, best.weight);
    let terms = terms_of(s, tested, floor, old.score);
    let verdict = judge(s, told.part_features, &chosen[..d], scratch, weight, terms);
    let scored = greater_of(old, tested.partial, verdict);
    Best {
        scored,
        weight: Some(weight),
    }
}

// Before the first list.
fn none_tried() -> Best
    ensures { result ≡ none_tried }
{
    Best {
        scored: nothing(),
        weight: None,
    }
}

// The score of a chain of this size, for a search whose best is at `floor`: a list that cannot reach it is passed over. The scratch is lent, so that
// nothing is cleared for a chain that no list passes the tests with.
pub(crate) fn score_chain(
    told: &Told,
    chain: Chain,
    chosen: &mut [u32],
    scratch: &mut [i32],
    floor: f32,
) -> Scored
    requires { Scorable (told_held told.now) chain.rows.now chain.size chosen.old scratch.old }
    ensures { let q = told_held told.now in
        let total = chain_total q.plan.width q.features chain.entry.rows.now chain.entry.size in
        StandsFor floor (coded_score q.plan q.part_features q.codes q.list_sizes total) result }
{
    let mut best = none_tried();
    for (i, code) in told.lists.codes.iter().enumerate() {
        let list = LaidList {
            code: *code,
            size: told.lists.sizes[i],
        };
        best = try_list(told, chain, list, chosen, scratch, floor, best);
    }
    best.scored
}
