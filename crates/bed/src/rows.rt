// The chosen rows of a table as text.
ghost use Rattle.std.specs.Prelude.{◌≡◌, true, not, get_or};
ghost use Rattle.text.specs.Written.{Written};
ghost use Rattle.bed.specs.Bed.{good_name};
ghost use Rattle.bed.specs.Writing.{missing_row, rows_text, little_text_room};

use crate::lines::{line_room, put_line};

pub(crate) fn missing_row(v: usize, rows: &[u32]) -> bool
    ensures { result ≡ missing_row v rows.now }
{
    rows.iter().any(|row| *row as usize >= v)
}

// A row's number; 0 past the end, so that nothing is asked of the rows.
fn number_at(numbers: &[u64], row: u32) -> u64
    ensures { result ≡ get_or numbers.now row 0 }
{
    numbers.get(row as usize).copied().unwrap_or(0)
}

// Whether there is room for the text.
pub(crate) fn fits(name: &[u8], starts: &[u64], ends: &[u64], rows: &[u32], room: usize) -> bool
    requires { good_name name.now ≡ true }
    ensures { result ≡ not (little_text_room room (rows_text name.now starts.now ends.now rows.now)) }
{
    let mut left = room;
    for row in rows {
        let n = line_room(name, number_at(starts, *row), number_at(ends, *row));
        if left < n {
            return false;
        }
        left -= n;
    }
    true
}

pub(crate) fn put_rows(
    text: &mut [u8],
    name: &[u8],
    starts: &[u64],
    ends: &[u64],
    rows: &[u32],
) -> usize
    ensures { Written text.old 0 (rows_text name.now starts.now ends.now rows.now) text.new result }
{
    let mut end = 0;
    for row in rows {
        end = put_line(
            text,
            end,
            name,
            number_at(starts, *row),
            number_at(ends, *row),
        );
    }
    end
}
