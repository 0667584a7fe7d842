// Block choice for a match that is accepted: the map of a raw volume as its own picture sees it, or as the other does.
ghost use Rattle.std.specs.Prelude.{◌≡◌, map, length};
ghost use Rattle.maps.specs.Cells.{in_buffer};
ghost use Rattle.choices.specs.Block.{block_map};
ghost use Rattle.choices.specs.Seen.{seen_as};
ghost use Rattle.matching.specs.Maps.{half, search_of, gates_of};
ghost use Rattle.matching.specs.Inner.{CountFits, MapSizes, VolumeRanged};

use crate::Match;
use choices::block::{Gates, Seen, select_block};
use choices::subpixel::Search;
use maps::Cell;
use options::BlockMatchOptions;

// What is searched.
pub fn search_of(opts: BlockMatchOptions) -> Search
    requires { CountFits opts }
    ensures { result ≡ search_of opts }
{
    Search {
        first: opts.min_disparity,
        count: opts.num_disparities as usize,
        subpixel: opts.subpixel,
    }
}

impl Match<'_> {
    // The map of the block choices. A window of one pixel shows one level, so that then there is no raw cost at all.
    pub fn choose_block(self, out: &mut [f32], raw: &[f32], seen: Seen)
        requires { MapSizes self.pictures.w self.pictures.h self.opts (length out.old) × VolumeRanged self.pictures.w self.pictures.h self.opts raw.now }
        ensures { out.new ≡ map in_buffer (block_map self.entry.pictures.w self.entry.pictures.h (half self.entry.opts) (search_of self.entry.opts) (gates_of self.entry.opts) (seen_as seen self.entry.pictures.w self.entry.pictures.h (search_of self.entry.opts) raw.now)) }
    {
        let Match { pictures, opts } = self;
        let r = opts.block_size / 2;
        if r == 0 {
            out.fill(f32::from(Cell::Mark));
            return;
        }
        let gates = Gates {
            min_correlation: opts.min_correlation,
            uniqueness_ratio: opts.uniqueness_ratio,
        };
        select_block(
            out,
            raw,
            pictures.w,
            pictures.h,
            r,
            search_of(opts),
            gates,
            seen,
        );
    }
}
