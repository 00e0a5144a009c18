// C's face of check_steps.
ghost use Rattle.std.specs.Prelude.{◌≡◌};
ghost use Rattle.records.specs.Records.{steps_outcome};

use records::Step;
use scanning::Verdict;
use store::Counts;

#[unsafe(no_mangle)]
pub extern "C" fn gfaffix_check_steps(
    nodes: &[u64],
    text: &[u8],
    links: &[u64],
    d: Counts,
    steps: &[Step],
) -> Verdict
    ensures { result ≡ steps_outcome nodes.now text.now links.now d steps.now }
{
    gfaffix::check_steps::check_steps(nodes, text, links, d, steps)
}
