// Protected ids, as a list that a caller lends.
#![tactic(auto)]

ghost use Rattle.std.specs.Prelude.{◌*◌, ◌≤◌, ◌≡◌, eqb, length, drop};
ghost use Rattle.kit.specs.Loops.{any};
ghost use Rattle.store.specs.Graph.{nodes_of};
ghost use Rattle.protected.specs.Protected.{ids_apart, ids_stored};

// Whether the id stands in the list from place `start` on.
pub fn id_from(ids: &[u64], start: usize, id: u64) -> bool
    ensures { result ≡ any (eqb id) (drop start ids.now) }
{
    ids.iter().skip(start).any(|x| id == *x)
}

pub fn ids_apart(ids: &[u64]) -> bool
    ensures { result ≡ ids_apart ids.now }
{
    for i in 0..ids.len() {
        if id_from(ids, i + 1, ids[i]) {
            return false;
        }
    }
    true
}

pub fn ids_stored(nodes: &[u64], count: usize, ids: &[u64]) -> bool
    requires { 4 * count ≤ length nodes.now }
    ensures { result ≡ ids_stored (nodes_of count nodes.now) ids.now }
{
    ids.iter()
        .all(|id| store::stored_from(nodes, count, 0, *id))
}
