// The program's own memory, of fixed size. Each array comes from a function that promises only its length: what it holds at first is never read.
ghost use Rattle.std.specs.Prelude.{◌≡◌, length};

// The feature rows of 16 variants at k 4.
pub(crate) fn variant_table() -> [i32; 4096]
    ensures { 4096 ≡ length result }
{
    [0i32; 4096]
}

// The feature rows of 16 × 8 parts at k 4.
pub(crate) fn part_table() -> [i32; 32768]
    ensures { 32768 ≡ length result }
{
    [0i32; 32768]
}

// The letters of all sequences: fewer than the job has bytes.
pub(crate) fn letter_room() -> [u8; 32768]
    ensures { 32768 ≡ length result }
{
    [0u8; 32768]
}

// The queue: 1 + (63 + 1) × 16 entries.
pub(crate) fn link_room() -> [u32; 1025]
    ensures { 1025 ≡ length result }
{
    [0u32; 1025]
}

pub(crate) fn key_room() -> [u64; 1025]
    ensures { 1025 ≡ length result }
{
    [0u64; 1025]
}
