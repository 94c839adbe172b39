// The nodes of a transistor's roles, from a list of them.
#![tactic(auto)]

ghost use Rattle.std.specs.Prelude.{◌≡◌};
ghost use Rattle.roles.specs.Roles.{node_at, roles_of};

use std::array;
use terms::ROLES;

// The node of role k in a list of nodes, or one that is off the board.
fn node_at(nodes: &[i64], k: usize) -> i64
    ensures { result ≡ node_at nodes.now k }
{
    nodes.get(k).copied().unwrap_or(-1)
}

// The nodes of all roles.
pub fn roles_of(nodes: &[i64]) -> [i64; ROLES]
    ensures { result ≡ roles_of nodes.now }
{
    array::from_fn(|k| node_at(nodes, k))
}
