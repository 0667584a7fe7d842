// What several crates need of lists, of sums and of signed numbers: specs/ has the words, proofs/ the laws. Here is what they share
// of code.
#![tactic(auto)]

ghost use Rattle.std.specs.Prelude.{◌≡◌, length};

// Copies every cell. Cell by cell, since std's method is a call of memmove, which the library for C would then need from its host.
pub fn copy_cells<T: Copy>(to: &mut [T], from: &[T])
    requires { length to.old ≡ length from.now }
    ensures { to.new ≡ from.now }
{
    for (i, cell) in to.iter_mut().enumerate() {
        *cell = from[i];
    }
}
