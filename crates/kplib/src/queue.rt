// The queue of the search, in two lent slices. Entries are only ever added: an entry's link is its parent × 64 + the row that it
// adds to the parent's chain. `keys` holds, for each entry still queued, its distance × 2^20 + its number, as a heap: the least
// key is the nearest entry, the earliest queued among equals.
ghost use Rattle.std.specs.Prelude.{◌≡◌, ◌+◌, ◌<◌, ◌≤◌, length, get_or, drop, nat_abs, ◌-ℤ◌, reverse};
ghost use Rattle.paths.specs.Count.{may_follow};
ghost use Rattle.paths.specs.Heap.{Ordered, Taken};
ghost use Rattle.paths.specs.Queue.{Walk, Queued, key_of, entry_of};
ghost use Rattle.kplib.specs.Sums.{size_of};
ghost use Rattle.kplib.specs.GraphWalk.{flag_of, Flagged};
ghost use Rattle.kplib.specs.Search.{distance_to};
ghost use Rattle.kplib.specs.Told.{told_held};
ghost use Rattle.kplib.specs.SearchSteps.{parents_of, lasts_of, chain_of, Rowed, Extending, follows_by, end_at};

use crate::heap::{put_key, take_least};
use crate::plan::Told;
use crate::vargraph::{Node, Row, node_of, stand_with};

// Takes the nearest entry, the earliest queued among equals, out of the queue.
pub(crate) fn take_next(keys: &mut [u64], queued: usize) -> usize
    requires { (0 < queued) × (queued ≤ length keys.old) × Ordered keys.old queued }
    ensures { (result ≡ entry_of (get_or keys.old 0 0)) × Taken keys.old queued keys.new }
{
    (take_least(keys, queued) % 1048576) as usize
}

// Reads an entry's chain back through its parents to the end of `chain`, rows ascending; says where it begins.
pub(crate) fn read_chain(links: &[u32], entry: usize, chain: &mut [u32]) -> usize
    requires { Walk (parents_of links.now) (lasts_of links.now) entry (length chain.old) }
    ensures { (result ≤ length chain.new) × (drop result chain.new ≡ reverse (chain_of links.now entry)) }
{
    let mut at = chain.len();
    let mut i = entry;
    while i > 0 {
        let link = links[i];
        at -= 1;
        chain[at] = link % 64;
        i = (link / 64) as usize;
    }
    at
}

// The key of an entry whose chain has this size.
pub(crate) fn key(size: i32, target: i32, entry: usize) -> u64
    requires { (nat_abs size ≤ 8388608) × (nat_abs target ≤ 8388608) × (entry < 1048576) }
    ensures { result ≡ key_of (nat_abs (size -ℤ target)) entry }
{
    u64::from(size.abs_diff(target)) * 1048576 + (entry as u64)
}

// The size of a chain.
pub(crate) fn rows_size(sizes: &[i32], rows: &[u32]) -> i32
    requires { Rowed sizes.now rows.now }
    ensures { result ≡ size_of sizes.now rows.now }
{
    let mut size: i32 = 0;
    for r in rows {
        size += sizes[*r as usize];
    }
    size
}

// The node at which an entry's chain ends.
fn end_node(links: &[u32], entry: usize) -> Node
    requires { entry < length links.now }
    ensures { result.0 ≡ end_at entry (get_or (lasts_of links.now) entry 0) }
{
    if entry == 0 {
        return Node(0);
    }
    node_of(Row(links[entry] % 64))
}

// Which rows may follow an entry's chain: every row of it is asked.
fn followers(together: &[bool; 4096], full: bool, links: &[u32], entry: usize) -> [bool; 64]
    requires { Walk (parents_of links.now) (lasts_of links.now) entry 64 }
    ensures { Flagged (may_follow (flag_of together.now) full (chain_of links.now entry)) result }
{
    let mut may = [full; 64];
    let mut i = entry;
    while i > 0 {
        let link = links[i];
        stand_with(together, Row(link % 64), &mut may);
        i = (link / 64) as usize;
    }
    may
}

// Queues the extensions of an entry's chain, highest node first: behind the `used` entries, and to the `queued` keys. Returns
// how many. `size` is the chain's size.
pub(crate) fn queue_extensions(
    told: &Told,
    links: &mut [u32],
    keys: &mut [u64],
    used: usize,
    queued: usize,
    entry: usize,
    size: i32,
) -> usize
    requires { Extending (told_held told.now) links.old keys.old used queued entry size }
    ensures fact { let q = told_held told.now in
        let follows = follows_by q.plan q.together in
        let distance = distance_to q.sizes q.plan.target in
        Queued follows (length q.sizes) distance (parents_of links.old) (lasts_of links.old) keys.old queued used entry
        (parents_of links.new) (lasts_of links.new) keys.new result }
    ensures result_in_bounds { queued + result ≤ length keys.new }
{
    let may = followers(told.together, told.plan.s.full, links, entry);
    let first = end_node(links, entry).0 as usize;
    let parent = (entry as u32) * 64;
    let mut added: usize = 0;
    for r in (first..told.sizes.len()).rev() {
        if may[r] {
            let new = used + added;
            links[new] = parent + (r as u32);
            let k = key(size + told.sizes[r], told.plan.target, new);
            put_key(keys, queued + added, k);
            added += 1;
        }
    }
    added
}
