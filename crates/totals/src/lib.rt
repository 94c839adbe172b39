// What a transistor's branches give to the node totals: each to its roles, and then each role to its node.
#![tactic(auto)]

ghost use Rattle.std.specs.Prelude.{ℕ, ◌≤◌, ◌<◌, get_or, nat_abs, pos};
ghost use Rattle.ends.specs.OfTerms.Rows.{roles, branches};
ghost use Rattle.ends.specs.OfScaling.Scaled.{tick_limit};
ghost use Rattle.ends.specs.OfTerms.Ends.{from_roles, to_roles};
ghost use Rattle.totals.specs.Gives.{nodes_most, at_node};
ghost use Rattle.totals.specs.inner.Sizes.{flow_most, room_most, handed_most};
ghost use Rattle.totals.specs.inner.Sums.{More, Within, Room, Wired, Givable, ends, ends_give, spread, roles_give};

pub use ends::terms;
use ends::terms::{BRANCHES, ROLES};
pub use polarity;

// The nodes.
pub const NODES: usize = 32;

// A branch gives x to the role it comes from, and takes as much from the other.
fn branch(a: &mut [i64; ROLES], from: u8, to: u8, x: i64)
    requires { (from < roles) × (to < roles) × Room roles flow_most a.old × (nat_abs x ≤ tick_limit) }
    ensures { More roles a.old a.new (ends from to x) }
{
    a[from as usize] += x;
    a[to as usize] -= x;
}

// All branches, each from its role to its role.
fn branches(
    a: &mut [i64; ROLES],
    from: &[u8; BRANCHES],
    to: &[u8; BRANCHES],
    ticks: &[i64; BRANCHES],
)
    requires { Wired roles from.now × Wired roles to.now × Room roles 0 a.old × Within tick_limit ticks.now }
    ensures { More roles a.old a.new
        (ends_give from.now to.now ticks.now branches) }
{
    for k in 0..BRANCHES {
        branch(a, from[k], to[k], ticks[k]);
    }
}

// x more at the node n. Many roles give nothing, and a node that several give to waits for each.
fn add(l: &mut [i64; NODES], n: u8, x: i64)
    requires { (n < nodes_most) × Room nodes_most handed_most l.old × (nat_abs x ≤ flow_most) }
    ensures { More nodes_most l.old l.new (λ (m : ℕ). at_node n m x) }
{
    if x != 0 {
        l[n as usize] += x;
    }
}

// Each role's amount to its node.
fn hand_out(l: &mut [i64; NODES], nodes: &[u8; ROLES], a: &[i64; ROLES])
    requires { Wired nodes_most nodes.now × Room nodes_most room_most l.old × Within flow_most a.now }
    ensures { More nodes_most l.old l.new
        (spread nodes.now (λ (k : ℕ). get_or a.now k (pos 0)) roles) }
{
    for k in 0..ROLES {
        add(l, nodes[k], a[k]);
    }
}

// What the branches give to the nodes.
pub fn put(l: &mut [i64; NODES], nodes: &[u8; ROLES], ticks: &[i64; BRANCHES])
    requires { Givable l.old nodes.now ticks.now }
    ensures { More nodes_most l.old l.new
        (roles_give nodes.now from_roles to_roles ticks.now) }
{
    let from = ends::from_roles();
    let to = ends::to_roles();
    let mut a = [0i64; ROLES];
    branches(&mut a, &from, &to, ticks);
    hand_out(l, nodes, &a);
}
