// The k-mer counter: the windows of k letters of a sequence, counted in a row.
ghost use Rattle.std.specs.Prelude.{◌≡◌, ◌+◌, ◌*◌, ◌%◌, ◌^◌, ◌≤◌, length, replicate, pos, if◌then◌else◌, nat_eq, unsigned_abs};
ghost use Rattle.std.proofs.Math.IntN.{suc_ℤ, pred_ℤ};
ghost use Rattle.metrics.specs.Letters.{encoded, counts_by};
ghost use Rattle.metrics.specs.Lanes.{entry_of, Coded};
ghost use Rattle.metrics.specs.Promises.{ClearRowPromise, EntriesPromise, SeqToKmerPromise};

use crate::refusals::Refusal;

// A, G, C and T give 0, 1, 2, 3 in either case; any other byte has no code.
#[tactic(auto, unfolding(crate::specs::Letters::encoded, crate::specs::Letters::has_code, crate::specs::Letters::code_of))]
fn encode_nuc(b: u8) -> Option<u8>
    ensures { result ≡ encoded b }
{
    match b {
        b'T' | b't' => Some(3),
        b'C' | b'c' => Some(2),
        b'G' | b'g' => Some(1),
        b'A' | b'a' => Some(0),
        _ => None,
    }
}

// A code as the table has it: 4096 marks that there is one, and none is 0. The mark falls away under the mask of `next_window`, so that reading 0 pays nothing for it.
fn as_entry(code: Option<u8>) -> u16
    ensures { result ≡ entry_of code }
{
    match code {
        Some(n) => n as u16 + 4096,
        None => 0,
    }
}

// The codes of all bytes, each by the match: a table has no branch to mispredict, so that random letters are counted in a fifth of the time.
// Below A, 65, and above t, 116, there are none, and with no more turns than these 52 the compiler folds the loop into a few stores.
fn code_table() -> [u16; 256]
    ensures { Coded result }
{
    let mut table = [0u16; 256];
    for b in 65..117u8 {
        table[b as usize] = as_entry(encode_nuc(b));
    }
    table
}

fn entry_by_table(table: &[u16; 256], b: u8) -> usize
    requires { Coded table.now }
    ensures { result ≡ entry_of (encoded b) }
{
    let i = b as usize;
    table[i] as usize
}

// The number of the last k letters once another letter is read. A mask, since a division takes ten times as long.
fn next_window(window: usize, entry: usize, k: u8, size: usize) -> usize
    requires { (size ≡ 4 ^ k) × (window ≤ 4096) × (entry ≤ 8192) }
    ensures { result ≡ (window * 4 + entry) % size }
{
    (window * 4 + entry) & (size - 1)
}

// How many letters in a row have a code, up to this one: none once a letter has none.
fn next_run(run: usize, entry: usize) -> usize
    requires { run ≤ 131072 }
    ensures { result ≡ (if nat_eq entry 0 then 0 else run + 1) }
{
    if entry == 0 { 0 } else { run + 1 }
}

// The entries of a feature row: 4^k. A k over 6 has none.
#[tactic(auto, unfolding(crate::specs::Letters::entry_count))]
pub fn entries(k: u8) -> usize
    ensures { EntriesPromise k result }
{
    match k {
        0 => 1,
        1 => 4,
        2 => 16,
        3 => 64,
        4 => 256,
        5 => 1024,
        6 => 4096,
        _ => 0,
    }
}

// One more window: one up, or one down for a negative sequence.
fn counted_once_more(x: i32, negative: bool) -> i32
    requires { unsigned_abs x ≤ 131072 }
    ensures { result ≡ (if negative then pred_ℤ x else suc_ℤ x) }
{
    if negative { x - 1 } else { x + 1 }
}

// One more window, if it is kept.
fn counted_if(x: i32, negative: bool, kept: bool) -> i32
    requires { unsigned_abs x ≤ 131072 }
    ensures { result ≡ (if kept then (if negative then pred_ℤ x else suc_ℤ x) else x) }
{
    if kept {
        return counted_once_more(x, negative);
    }
    x
}

// A row of zeros, whatever it held.
pub fn clear_row(row: &mut [i32])
    ensures { ClearRowPromise row.old row.new }
{
    row.fill(0);
}

// Counts each window of k letters that is kept, in a row of zeros. `window` is the number of the last k letters, `run` how many letters in a row have
// a code; reading 0 keeps every window. Reading 1 stores at every letter: a branch on letters without a code would be mispredicted.
fn count_windows(seq: &[u8], k: u8, size: usize, negative: bool, letters: u8, out: &mut [i32])
    requires { (size ≡ 4 ^ k) × (1 ≤ k) × (k ≤ 6) × (length seq.now ≤ 131072) × (out.old ≡ replicate (4 ^ k) (pos 0)) }
    ensures { out.new ≡ counts_by letters k negative seq.now }
{
    let width = k as usize;
    let table = code_table();
    let mut window: usize = 0;
    let mut run: usize = 0;
    for (i, b) in seq.iter().enumerate() {
        let entry = entry_by_table(&table, *b);
        window = next_window(window, entry, k, size);
        if letters == 0 {
            if width <= i + 1 {
                out[window] = counted_once_more(out[window], negative);
            }
        } else {
            run = next_run(run, entry);
            out[window] = counted_if(out[window], negative, width <= run);
        }
    }
}

// The counts of a sequence's windows of k letters, in a lent row of 4^k entries: of every window by reading 0, by reading 1 of those in which each letter has a code.
#[tactic(auto, unfolding(crate::specs::Letters::counter_answer))]
pub fn seq_to_kmer(
    seq: &[u8],
    k: u8,
    negative: bool,
    letters: u8,
    out: &mut [i32],
) -> Result<(), Refusal>
    ensures { SeqToKmerPromise seq.now k negative letters out.old out.new result }
{
    if k < 1 || 6 < k {
        return Err(Refusal::BadK);
    }
    if letters > 1 {
        return Err(Refusal::BadNumber);
    }
    let size = entries(k);
    if out.len() != size {
        return Err(Refusal::BadLengths);
    }
    if seq.len() > 131072 {
        return Err(Refusal::TooManyLetters);
    }
    clear_row(out);
    count_windows(seq, k, size, negative, letters, out);
    Ok(())
}
