// Nodes, held currents and names by place, each a stretch of a flat array.
#![tactic(auto)]

ghost use Rattle.std.specs.Prelude.{◌≡◌, ◌*◌, ◌<◌, pos};
ghost use Rattle.name.specs.Name.{name_length};
ghost use Rattle.terms.specs.Rows.{roles, branches};
ghost use Rattle.deck.specs.Stretch.{stretch, written};
ghost use Rattle.places.specs.Counts.{cards_most, transistors_most};

pub use places;
pub use places::totals;
use places::{ALL_CURRENTS, ALL_NAMES, ALL_NODES};
use terms::{BRANCHES, ROLES};

pub fn nodes_at(nodes: &[u8; ALL_NODES], i: usize) -> [u8; ROLES]
    requires { i < transistors_most }
    ensures { result ≡ stretch 0 nodes.now (roles * i) roles }
{
    deck::stretch_at(nodes, i)
}

pub fn put_nodes(nodes: &mut [u8; ALL_NODES], i: usize, on: &[u8; ROLES])
    requires { i < transistors_most }
    ensures { nodes.new ≡ written 0 nodes.old (roles * i) on.now roles }
{
    deck::put_stretch(nodes, i, on);
}

pub fn currents_at(currents: &[i64; ALL_CURRENTS], i: usize) -> [i64; BRANCHES]
    requires { i < transistors_most }
    ensures { result ≡ stretch (pos 0) currents.now (branches * i) branches }
{
    deck::stretch_at(currents, i)
}

pub fn put_currents(currents: &mut [i64; ALL_CURRENTS], i: usize, own: &[i64; BRANCHES])
    requires { i < transistors_most }
    ensures { currents.new ≡ written (pos 0) currents.old (branches * i) own.now
        branches }
{
    deck::put_stretch(currents, i, own);
}

pub fn put_name(names: &mut [u8; ALL_NAMES], i: usize, own: &[u8; name::LENGTH])
    requires { i < cards_most }
    ensures { names.new ≡ written 0 names.old (name_length * i) own.now
        name_length }
{
    deck::put_stretch(names, i, own);
}
