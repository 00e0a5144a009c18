// C's face of expand.
ghost use Rattle.std.specs.Prelude.{◌≡◌};
ghost use Rattle.walking.specs.Expand.{outcome, expand_outcome};

use events::Used;
use gfaffix::expand::Expanded;

#[unsafe(no_mangle)]
pub extern "C" fn gfaffix_expand(
    rules: &[u64],
    steps: &[u64],
    u: Used,
    out_rules: &mut [u64],
    out_steps: &mut [u64],
) -> Expanded
    ensures { outcome result out_rules.new out_steps.new ≡ expand_outcome rules.now steps.now u out_rules.old out_steps.old }
{
    gfaffix::expand::expand(rules, steps, u, out_rules, out_steps)
}
