// One picture read at a pixel and between pixels, for hosts: 0, or the number of the refusal, which leaves what is lent as it was.
ghost use Rattle.pictures.specs.Picture.{pixel_of};
ghost use Rattle.pictures.specs.Bilinear.{sample_of};
ghost use Rattle.plombrisa.specs.Host.{HostTold};

use crate::told::tell;
use pictures::{bilinear, pixel};

// The level of the pixel (x, y).
#[unsafe(no_mangle)]
pub extern "C" fn plombrisa_pixel(
    pic: &[u8],
    width: usize,
    height: usize,
    x: usize,
    y: usize,
    level: &mut u8,
) -> u32
    ensures { HostTold result (pixel_of pic.now width height x y) level.old level.new }
{
    tell(pixel(pic, width, height, x, y), level)
}

// The picture read at (x, y), clamped to its border.
#[unsafe(no_mangle)]
pub extern "C" fn plombrisa_bilinear(
    pic: &[u8],
    width: usize,
    height: usize,
    x: f64,
    y: f64,
    value: &mut f64,
) -> u32
    ensures { HostTold result (sample_of pic.now width height x y) value.old value.new }
{
    tell(bilinear(pic, width, height, x, y), value)
}
