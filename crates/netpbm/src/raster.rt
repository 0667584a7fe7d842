// A raster's size, judged with the count of its bytes.
ghost use Rattle.std.specs.Prelude.{◌≤◌, IfOk};
ghost use Rattle.netpbm.specs.Inner.{SizedAs};

use options::is_side;
use refusals::Refusal;

// A width and a height.
#[derive(Clone, Copy, Debug, PartialEq, Eq)]
pub struct Size {
    pub width: usize,
    pub height: usize,
}

// The size that a header says, where it goes with the bytes after the header, `each` for a cell.
#[tactic(auto, using(crate::proofs::Readings::judged_long, crate::proofs::Readings::judged_is), unfolding(crate::specs::Raster::sized))]
pub fn judge_size(each: usize, width: u64, height: u64, bytes: &[u8]) -> Result<Size, Refusal>
    requires { each ≤ 4 }
    ensures { SizedAs each width height bytes.now result }
{
    let size = Size {
        width: width as usize,
        height: height as usize,
    };
    if !is_side(size.width) || !is_side(size.height) {
        return Err(Refusal::FileSize);
    }
    if bytes.len() != each * (size.width * size.height) {
        return Err(Refusal::FileData);
    }
    Ok(size)
}
