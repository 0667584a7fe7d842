// The root by itself, for the run that holds it to the processor's. It is not delivered.
#![tactic(auto)]

ghost use Rattle.std.specs.Prelude.{◌≡◌};
ghost use Rattle.roots.specs.Pattern.{root_pattern};

use numbers::root::root;

// The bit pattern of the root of n, for n from 1 to 2^53, and else 0.
#[tactic(auto, unfolding(crate::specs::Pattern::root_pattern))]
#[unsafe(no_mangle)]
pub extern "C" fn root_pattern(n: u64) -> u64
    ensures { result ≡ root_pattern n }
{
    if (1..=0x20_0000_0000_0000).contains(&n) {
        f64::to_bits(root(n))
    } else {
        0
    }
}
