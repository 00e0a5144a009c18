// Whether a new graph and a table stand for an old graph: the eight conditions.
ghost use Rattle.std.specs.Prelude.{◌≡◌};
ghost use Rattle.kit.specs.Refusal.{number_of};
ghost use Rattle.checking.specs.CheckTransform.{lent, input_number, check_outcome};

use events::Used;
use kit::Refusal;
use scanning::Verdict;
use store::Counts;

// 8: 13 of any argument, then 5 of any, then 6. A protected id names an old node.
fn input_number(
    old_nodes: &[u64],
    old_text: &[u8],
    old_links: &[u64],
    c: Counts,
    nodes: &[u64],
    text: &[u8],
    links: &[u64],
    d: Counts,
    rules: &[u64],
    steps: &[u64],
    u: Used,
    protected: &[u64],
) -> Result<(), Refusal>
    ensures { number_of result ≡ input_number (lent old_nodes.now old_text.now old_links.now c) (lent nodes.now text.now links.now d) rules.now steps.now u protected.now }
{
    if !formed::old_formed(old_nodes, old_text, old_links, c) {
        return Err(Refusal::Malformed);
    }
    if !formed::well_formed(nodes, text, links, d) {
        return Err(Refusal::Malformed);
    }
    if !events::table_formed(rules, steps, u) {
        return Err(Refusal::Malformed);
    }
    if !formed::ids_once(old_nodes, c.nodes) {
        return Err(Refusal::Twice);
    }
    if !formed::ids_once(nodes, d.nodes) {
        return Err(Refusal::Twice);
    }
    if !events::keys_once(rules, u.rules) {
        return Err(Refusal::Twice);
    }
    if !protected::ids_apart(protected) {
        return Err(Refusal::Twice);
    }
    if !protected::ids_stored(old_nodes, c.nodes, protected) {
        return Err(Refusal::Absent);
    }
    Ok(())
}

#[tactic(auto, unfolding(crate::specs::CheckTransform::check_outcome))]
pub fn check_transform(
    old_nodes: &[u64],
    old_text: &[u8],
    old_links: &[u64],
    c: Counts,
    nodes: &[u64],
    text: &[u8],
    links: &[u64],
    d: Counts,
    rules: &[u64],
    steps: &[u64],
    u: Used,
    protected: &[u64],
) -> Verdict
    ensures { result ≡ check_outcome (lent old_nodes.now old_text.now old_links.now c) (lent nodes.now text.now links.now d) rules.now steps.now u protected.now }
{
    if let Err(why) = input_number(
        old_nodes, old_text, old_links, c, nodes, text, links, d, rules, steps, u, protected,
    ) {
        return Verdict {
            number: why.number(),
            first: 0,
            second: 0,
        };
    }
    verdict::conditions(
        old_nodes, old_text, old_links, c, nodes, text, links, d, rules, steps, u, protected,
    )
}
