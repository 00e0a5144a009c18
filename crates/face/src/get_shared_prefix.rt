// C's face of get_shared_prefix.
ghost use Rattle.std.specs.Prelude.{◌≡◌};
ghost use Rattle.asking.specs.GetSharedPrefix.{outcome, shared_prefix_outcome};

use gfaffix::get_shared_prefix::SharedPrefix;
use store::Counts;

#[unsafe(no_mangle)]
pub extern "C" fn gfaffix_get_shared_prefix(
    nodes: &[u64],
    text: &[u8],
    links: &[u64],
    c: Counts,
    members: &[u64],
    out: &mut [u8],
) -> SharedPrefix
    ensures { outcome result out.new ≡ shared_prefix_outcome nodes.now text.now links.now c members.now out.old }
{
    gfaffix::get_shared_prefix::get_shared_prefix(nodes, text, links, c, members, out)
}
