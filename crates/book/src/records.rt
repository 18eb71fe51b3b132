// The records of a book: how many there are, whether they and what is behind them keep the rules, and one laid down.
ghost use Rattle.std.specs.Prelude.{◌≡◌, ◌++◌, ◌+◌, ◌*◌, ◌<◌, ◌≤◌, length, take, drop};
ghost use Rattle.form.specs.Form.{all_zero};
ghost use Rattle.book.specs.Book.{versions_of, good_record, broken, version_record};

use form::settings::settings41_fault;

// the byte that begins a record
const KIND: u8 = 0x21;
// where a record has its settings, behind kind and version, and how long they are
pub(crate) const SETTINGS_PLACE: usize = 2;

pub(crate) const SETTINGS: usize = 41;

pub(crate) const RECORD: usize = 43;

// How many records begin one behind the other, each a whole record behind the one before. The last may be cut short.
pub(crate) fn versions(book: &[u8]) -> usize
    ensures { (result ≡ versions_of book.now) × (43 * result < length book.now + 43) }
{
    let mut n: usize = 0;
    while RECORD * n < book.len() {
        if book[RECORD * n] == 0 {
            return n;
        }
        n += 1;
    }
    n
}

// Whether the record at a place keeps the rules, where it should have this version.
fn good_record(book: &[u8], at: usize, version: usize) -> bool
    requires { at < length book.now }
    ensures { result ≡ good_record book.now at version }
{
    if book[at] != KIND {
        return false;
    }
    if book.len() - at < RECORD {
        return false;
    }
    if book[at + 1] as usize != version {
        return false;
    }
    let from = at + SETTINGS_PLACE;
    settings41_fault(&book[from..from + SETTINGS]).is_ok()
}

fn zeros_from(book: &[u8], at: usize) -> bool
    ensures { result ≡ all_zero (drop at book.now) }
{
    for i in at..book.len() {
        if book[i] != 0 {
            return false;
        }
    }
    true
}

// Whether 48 is given.
pub(crate) fn broken(book: &[u8]) -> bool
    ensures { result ≡ broken book.now }
{
    let n = versions(book);
    for i in 0..n {
        if !good_record(book, RECORD * i, i + 1) {
            return true;
        }
    }
    !zeros_from(book, RECORD * n)
}

// Bytes copied over those from a place on.
pub(crate) fn lay(out: &mut [u8], at: usize, from: &[u8])
    requires { at + length from.now ≤ length out.old }
    ensures { out.new ≡ take at out.old ++ from.now ++ drop (at + length from.now) out.old }
{
    out[at..at + from.len()].copy_from_slice(from);
}

pub(crate) fn record_of(version: usize, settings: &[u8]) -> [u8; 43]
    requires { (version < 256) × (length settings.now ≡ 41) }
    ensures { result ≡ version_record version settings.now }
{
    let mut record = [0u8; 43];
    record[0] = KIND;
    record[1] = version as u8;
    record[SETTINGS_PLACE..].copy_from_slice(settings);
    record
}
