// Numbers of the caller, each an i64, as the board holds them. Every number has an answer.
#![tactic(auto)]

ghost use Rattle.std.specs.Prelude.{◌≡◌, map};
ghost use Rattle.given.specs.Arguments.{issue_of};
ghost use Rattle.given.specs.inner.Nodes.{node_of};

pub use totals;
use totals::NODES;
use totals::terms::ROLES;

// The last issue number.
pub const ISSUES: u32 = 65535;

// An issue number; 0, which is never given, for any number that is none.
pub fn issue_of(n: i64) -> u32
    ensures { result ≡ issue_of n }
{
    if 0 <= n && n <= ISSUES as i64 {
        n as u32
    } else {
        0
    }
}

// A node's number; the number of nodes for any number that is none.
pub fn node_of(n: i64) -> u8
    ensures { result ≡ node_of n }
{
    if 0 <= n && n < NODES as i64 {
        n as u8
    } else {
        NODES as u8
    }
}

pub fn nodes_of(nodes: [i64; ROLES]) -> [u8; ROLES]
    ensures { result ≡ map node_of nodes }
{
    let mut on = [0u8; ROLES];
    for (k, n) in nodes.iter().enumerate() {
        on[k] = node_of(*n);
    }
    on
}
