// PGM pictures read, PFM maps written and read, for hosts: 0, or the number of the refusal, which leaves what is lent as it was.
ghost use Rattle.refusals.specs.Writes.{byte_count};
ghost use Rattle.netpbm.specs.Pgm.{read_pgm};
ghost use Rattle.netpbm.specs.Pfm.{pfm_of, read_pfm};
ghost use Rattle.netpbm.specs.Outcome.{size_of};
ghost use Rattle.plombrisa.specs.Host.{HostTold, sides_in, HostWritten, HostRaster};

use crate::told::{tell_count, tell_size};
use netpbm::pfm::{pfm_size, read_pfm};
use netpbm::pgm::{pgm_size, read_pgm};
use netpbm::writing::{pfm_length, write_pfm};

// The size of a PGM picture, without its levels.
#[unsafe(no_mangle)]
pub extern "C" fn plombrisa_pgm_size(file: &[u8], width: &mut u64, height: &mut u64) -> u32
    ensures { HostTold result (size_of (read_pgm file.now)) (sides_in width.old height.old) (sides_in width.new height.new) }
{
    tell_size(pgm_size(file), width, height)
}

// Reads a PGM picture's levels into `out`, which is to be as long as the picture, with width and height in the lent numbers.
#[unsafe(no_mangle)]
pub extern "C" fn plombrisa_read_pgm(
    file: &[u8],
    out: &mut [u8],
    width: &mut u64,
    height: &mut u64,
) -> u32
    ensures { HostRaster result (read_pgm file.now) out.old out.new (sides_in width.old height.old) (sides_in width.new height.new) }
{
    tell_size(read_pgm(file, out), width, height)
}

// How many bytes the PFM file of a map takes.
#[unsafe(no_mangle)]
pub extern "C" fn plombrisa_pfm_length(
    cells: &[f32],
    width: usize,
    height: usize,
    count: &mut u64,
) -> u32
    ensures { HostTold result (byte_count (pfm_of width height cells.now)) count.old count.new }
{
    tell_count(pfm_length(cells, width, height), count)
}

// Writes the PFM file of a map at the front of `out`, with its byte count in the lent number; bytes beyond it are left as they were.
#[unsafe(no_mangle)]
pub extern "C" fn plombrisa_write_pfm(
    cells: &[f32],
    width: usize,
    height: usize,
    out: &mut [u8],
    count: &mut u64,
) -> u32
    ensures { HostWritten 45 result (pfm_of width height cells.now) out.old out.new count.old count.new }
{
    tell_count(write_pfm(cells, width, height, out), count)
}

// The size of a PFM map, without its cells.
#[unsafe(no_mangle)]
pub extern "C" fn plombrisa_pfm_size(file: &[u8], width: &mut u64, height: &mut u64) -> u32
    ensures { HostTold result (size_of (read_pfm file.now)) (sides_in width.old height.old) (sides_in width.new height.new) }
{
    tell_size(pfm_size(file), width, height)
}

// Reads a PFM map's cells into `out`, which is to be as long as the map, with width and height in the lent numbers.
#[unsafe(no_mangle)]
pub extern "C" fn plombrisa_read_pfm(
    file: &[u8],
    out: &mut [f32],
    width: &mut u64,
    height: &mut u64,
) -> u32
    ensures { HostRaster result (read_pfm file.now) out.old out.new (sides_in width.old height.old) (sides_in width.new height.new) }
{
    tell_size(read_pfm(file, out), width, height)
}
