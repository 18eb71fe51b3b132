// Settings with versions (document 02, P9): a book in a lent buffer. Saving adds the next version, reading one gives the settings saved under it,
// going back to one saves its settings again. The bytes are kept as they are lent.
#![tactic(auto)]

mod records;

ghost use Rattle.std.specs.Prelude.{◌≡◌};
ghost use Rattle.metrics.specs.Refusals.{told};
ghost use Rattle.params.specs.Numbers.{first_of};
ghost use Rattle.book.specs.Changes.{room_rules, save_fault, read_fault, restore_fault};
ghost use Rattle.book.specs.Promises.{SavePromise, ReadPromise, RestorePromise};

use crate::records::{RECORD, SETTINGS, SETTINGS_PLACE, broken, lay, record_of, versions};
use form::settings::settings41_fault;
use metrics::refusals::Refusal;

// a version is a byte, from 1 upward
const MOST_VERSIONS: usize = 255;

// 46 and 47.
fn room_fault(book: &[u8]) -> Result<(), Refusal>
    ensures { told result ≡ first_of (room_rules book.now) }
{
    let n = versions(book);
    if n >= MOST_VERSIONS {
        return Err(Refusal::VersionsUsed);
    }
    if book.len() < RECORD * n + RECORD {
        return Err(Refusal::LittleBookRoom);
    }
    Ok(())
}

fn save_fault(book: &[u8], settings: &[u8; 41]) -> Result<(), Refusal>
    ensures { told result ≡ save_fault book.now settings.now }
{
    if broken(book) {
        return Err(Refusal::BrokenBook);
    }
    settings41_fault(settings)?;
    room_fault(book)
}

#[tactic(auto, unfolding(crate::specs::Changes::read_fault))]
fn read_fault(book: &[u8], version: u32) -> Result<(), Refusal>
    ensures { told result ≡ read_fault book.now version }
{
    if broken(book) {
        return Err(Refusal::BrokenBook);
    }
    if version < 1 || version as usize > versions(book) {
        return Err(Refusal::MissingVersion);
    }
    Ok(())
}

fn restore_fault(book: &[u8], version: u32) -> Result<(), Refusal>
    ensures { told result ≡ restore_fault book.now version }
{
    read_fault(book, version)?;
    room_fault(book)
}

// The settings under the next version, which is given.
pub fn save(book: &mut [u8], settings: &[u8; 41]) -> Result<u32, Refusal>
    ensures { SavePromise book.old settings.now book.new result }
{
    save_fault(book, settings)?;
    let n = versions(book);
    let record = record_of(n + 1, settings);
    lay(book, RECORD * n, &record);
    Ok((n + 1) as u32)
}

// The settings saved under a version, whatever was saved later.
pub fn read(book: &[u8], version: u32, settings: &mut [u8; 41]) -> Result<(), Refusal>
    ensures { ReadPromise book.now version settings.old settings.new result }
{
    read_fault(book, version)?;
    let from = RECORD * (version as usize - 1) + SETTINGS_PLACE;
    settings.copy_from_slice(&book[from..from + SETTINGS]);
    Ok(())
}

// The settings of a version saved again, under the next.
pub fn restore(book: &mut [u8], version: u32) -> Result<u32, Refusal>
    ensures { RestorePromise book.old version book.new result }
{
    restore_fault(book, version)?;
    let n = versions(book);
    let from = RECORD * (version as usize - 1) + SETTINGS_PLACE;
    let record = record_of(n + 1, &book[from..from + SETTINGS]);
    lay(book, RECORD * n, &record);
    Ok((n + 1) as u32)
}
