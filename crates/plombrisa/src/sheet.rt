// A map's sheet written and read, for hosts: 0, or the number of the refusal, which leaves what is lent as it was. A kind is given by
// its number.
ghost use Rattle.sheets.specs.Sheet.{sheet_of, read_sheet};
ghost use Rattle.refusals.specs.Writes.{byte_count};
ghost use Rattle.sheets.specs.Outcome.{size_said};
ghost use Rattle.sheets.specs.Given.{said_given};
ghost use Rattle.plombrisa.specs.Host.{HostTold, sheet_in, HostWritten, HostSheet};

use crate::told::{tell_count, tell_sheet};
use sheets::reading::{read_sheet, sheet_size};
use sheets::writing::{sheet_length, write_sheet};

// How many bytes the sheet of a map takes.
#[unsafe(no_mangle)]
pub extern "C" fn plombrisa_sheet_length(
    cells: &[f32],
    width: usize,
    height: usize,
    kind: u64,
    count: &mut u64,
) -> u32
    ensures { HostTold result (byte_count (sheet_of kind width height cells.now)) count.old count.new }
{
    tell_count(sheet_length(cells, width, height, kind), count)
}

// Writes the sheet of a map at the front of `out`, with its byte count in the lent number; bytes beyond it are left as they were.
#[unsafe(no_mangle)]
pub extern "C" fn plombrisa_write_sheet(
    cells: &[f32],
    width: usize,
    height: usize,
    kind: u64,
    out: &mut [u8],
    count: &mut u64,
) -> u32
    ensures { HostWritten 33 result (sheet_of kind width height cells.now) out.old out.new count.old count.new }
{
    tell_count(write_sheet(cells, width, height, kind, out), count)
}

// What a sheet is, without its cells: kind, width and height.
#[unsafe(no_mangle)]
pub extern "C" fn plombrisa_sheet_size(
    sheet: &[u8],
    kind: &mut u64,
    width: &mut u64,
    height: &mut u64,
) -> u32
    ensures { HostTold result (said_given (size_said (read_sheet sheet.now))) (sheet_in kind.old width.old height.old) (sheet_in kind.new width.new height.new) }
{
    tell_sheet(sheet_size(sheet), kind, width, height)
}

// Reads a sheet's cells into `out`, which is to be as long as the map, with kind, width and height in the lent numbers.
#[unsafe(no_mangle)]
pub extern "C" fn plombrisa_read_sheet(
    sheet: &[u8],
    out: &mut [f32],
    kind: &mut u64,
    width: &mut u64,
    height: &mut u64,
) -> u32
    ensures { HostSheet result (read_sheet sheet.now) out.old out.new (sheet_in kind.old width.old height.old) (sheet_in kind.new width.new height.new) }
{
    tell_sheet(read_sheet(sheet, out), kind, width, height)
}
