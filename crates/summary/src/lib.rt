// A node summed up: how many transistors name it, on how many cards, and the largest size of a branch that starts or
// ends there.
#![tactic(auto)]

ghost use Rattle.std.specs.Prelude.{◌≡◌, true, cond, ◌||◌, suc, ◌<◌, eqb, get_or, nat_abs};
ghost use Rattle.given.specs.Lists.{any_of, larger, largest, different};
ghost use Rattle.places.specs.Counts.{transistors_most};
ghost use Rattle.places.specs.Sets.{member};
ghost use Rattle.model.specs.Board.{Board};
ghost use Rattle.model.specs.Answering.{answer_of};
ghost use Rattle.model.specs.Largest.{size_at};
ghost use Rattle.model.specs.Model.{summed_of};
ghost use Rattle.summary.specs.inner.Told.{cards_below, sizes_below, LendsNode};

use model::Answer;
use places::{ALL_CURRENTS, ALL_NODES, TRANSISTORS};
use refusal::Refusal;
use terms::{BRANCHES, ROLES};
use totals::NODES;

// The size of a branch of x ticks between two nodes where one of them is n, else 0.
fn size_there(x: i64, from: u8, to: u8, n: u8) -> u64
    ensures { result ≡ cond (eqb from n || eqb to n) (nat_abs x) 0 }
{
    if from == n || to == n {
        x.unsigned_abs()
    } else {
        0
    }
}

// The largest size of a transistor's branches at the node n.
fn largest_at(on: &[u8; ROLES], own: &[i64; BRANCHES], n: u8) -> u64
    ensures { result ≡ size_at n on.now own.now }
{
    let from = ends::from_roles();
    let to = ends::to_roles();
    let mut most: u64 = 0;
    for k in (0..BRANCHES).rev() {
        let f = from[k] as usize;
        let t = to[k] as usize;
        most = size_there(own[k], on[f], on[t], n).max(most);
    }
    most
}

// The largest size at the node n of the branches of those at the places of the set.
fn largest_in(nodes: &[u8; ALL_NODES], currents: &[i64; ALL_CURRENTS], set: u64, n: u8) -> u64
    ensures { result ≡ largest (sizes_below nodes.now currents.now set n transistors_most) }
{
    let mut most: u64 = 0;
    let mut i = sets::next_in(set, 0);
    while i < TRANSISTORS {
        let on = sets::nodes_at(nodes, i);
        let own = sets::currents_at(currents, i);
        most = largest_at(&on, &own, n).max(most);
        i = sets::next_in(set, i + 1);
    }
    most
}

// Whether the card at place i of the set stands at an earlier place of it too.
fn is_again(cards: &[u32; TRANSISTORS], set: u64, i: usize) -> bool
    requires { (i < transistors_most) × (member set i ≡ true) }
    ensures { result ≡ any_of (eqb (get_or cards.now i 0)) (cards_below cards.now set i) }
{
    let card = cards[i];
    let mut found = false;
    let mut j = sets::next_in(set, 0);
    while j < i {
        found = card == cards[j] || found;
        j = sets::next_in(set, j + 1);
    }
    found
}

// How many different cards stand at the places of the set.
fn cards_in(cards: &[u32; TRANSISTORS], set: u64) -> u32
    ensures { result ≡ different (cards_below cards.now set transistors_most) }
{
    let mut count: u32 = 0;
    let mut i = sets::next_in(set, 0);
    while i < TRANSISTORS {
        if !is_again(cards, set, i) {
            count += 1;
        }
        i = sets::next_in(set, i + 1);
    }
    count
}

// 13.
pub fn sum_up(
    cards: &[u32; TRANSISTORS],
    nodes: &[u8; ALL_NODES],
    naming: &[u64; NODES],
    currents: &[i64; ALL_CURRENTS],
    node: i64,
) -> Result<Answer, Refusal>
    ensures { (b : Board) → LendsNode b cards.now nodes.now naming.now
        currents.now → answer_of result ≡ (summed_of b node).answer }
{
    let n = given::node_of(node);
    if NODES <= n as usize {
        return Err(Refusal::OutOfRange);
    }
    let set = naming[n as usize];
    let count = sets::count(set);
    let kinds = cards_in(cards, set);
    let most = largest_in(nodes, currents, set, n);
    Ok(Answer::Summed(count, kinds, most))
}
