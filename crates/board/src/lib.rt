// The board: cards and transistors in places, handed from call to call by value. Voltages and node totals stand in two
// slices that the caller lends, 32 numbers each.
// Each method asks that calls from a fresh board left the board as it is, whatever the slices held at each of them, and
// gives the answer with the next board, which is such a board again. Of the slices nothing is asked.
#![tactic(auto)]

ghost use Rattle.std.specs.Prelude.{◌≡◌, [], ◌∷◌, length};
ghost use Rattle.bytes_le.specs.Buffer.{over};
ghost use Rattle.model.specs.Model.{loaded_of, withdrawn_of, looked_of, opened_of, listed_of, summed_of};
ghost use Rattle.reading.specs.OfLending.Rest.{bare};
ghost use Rattle.reading.specs.OfLending.Lending.{fresh_rest, fresh_lent, placed_lent, moved_lent, lifted_lent, showed_lent};
ghost use Rattle.board.specs.Promise.{model_of, board_of, state_in, given_as, handed_as, Reached};

pub use model::Answer;
use taking::holding;
use terms::{BRANCHES, ROLES};

// Flat arrays of numbers, so that each can be lent. The first six hold the cards by their places; then come the
// transistors, with a set of their places for each node; what a move changes stands last.
// `next` has 64 bits, though 32 hold every number, so that what follows it begins at a multiple of eight: a part that
// begins between two is copied more often.
#[repr(C)]
#[derive(Clone, Copy)]
pub struct Board {
    pub numbers: [u32; deck::ALL_NUMBERS],
    pub powers: [u16; deck::ALL_POWERS],
    pub ticks: [u64; deck::ALL_TICKS],
    pub switches: [bool; deck::ALL_SWITCHES],
    pub names: [u8; places::ALL_NAMES],
    pub held: [u32; Board::CARDS],
    pub next: u64,
    pub issues: [u32; Board::TRANSISTORS],
    pub cards: [u32; Board::TRANSISTORS],
    pub seats: [u8; Board::TRANSISTORS],
    pub nodes: [u8; places::ALL_NODES],
    // for each node the places of the transistors that name it
    pub naming: [u64; Board::NODES],
    // what each transistor's branches carry, in ticks
    pub currents: [i64; places::ALL_CURRENTS],
}

// An answer; the numbers of `Answer::Currents` stand beside it, and are 0 beside every other.
#[derive(Clone, Copy)]
pub struct Answered {
    pub board: Board,
    pub answer: Answer,
    pub ticks: [i64; BRANCHES],
}

impl Board {
    pub const NODES: usize = totals::NODES;

    pub const CARDS: usize = places::CARDS;

    pub const TRANSISTORS: usize = places::TRANSISTORS;

    // No cards and no transistors.
    fn empty() -> Board
        ensures { result ≡ board_of fresh_rest }
    {
        Board {
            numbers: [0u32; deck::ALL_NUMBERS],
            powers: [0u16; deck::ALL_POWERS],
            ticks: [0u64; deck::ALL_TICKS],
            switches: [false; deck::ALL_SWITCHES],
            names: [0u8; places::ALL_NAMES],
            held: [0u32; Board::CARDS],
            next: 1,
            issues: [0u32; Board::TRANSISTORS],
            cards: [0u32; Board::TRANSISTORS],
            seats: [0u8; Board::TRANSISTORS],
            nodes: [0u8; places::ALL_NODES],
            naming: [0u64; Board::NODES],
            currents: [0i64; places::ALL_CURRENTS],
        }
    }

    // An empty board, and every voltage and total 0: 13 where a slice has not 32 numbers. An empty board stands beside
    // that too.
    pub fn fresh(volts: &mut [i64], totals: &mut [i64]) -> Answered
        ensures value { result ≡ handed_as (fresh_lent volts.old totals.old) }
        ensures reached { Reached result.board }
        ensures volts_after { volts.new ≡ (fresh_lent volts.old totals.old).state.volts }
        ensures totals_after { totals.new ≡ (fresh_lent volts.old totals.old).state.totals }
    {
        let board = Board::empty();
        let cleared = putting::clear(volts, totals);
        Answered {
            board,
            answer: model::answer_of(cleared.and(Ok(Answer::Done))),
            ticks: [0i64; BRANCHES],
        }
    }

    // A card under a name: 1, 2, 6, 7, 8, 19, 9, 10, 11, 17. It gets the next issue number.
    // (written into its callers, which saves them a copy of the board: docs/HOST.md)
    #[inline(always)]
    pub fn load(mut self, name: &[u8], bytes: &[u8]) -> Answered
        requires { Reached self }
        ensures value { result ≡ given_as (loaded_of (bare (model_of self)) name.now bytes.now) }
        ensures reached { Reached result.board }
    {
        let all = &mut self;
        let numbers = &mut all.numbers;
        let powers = &mut all.powers;
        let ticks = &mut all.ticks;
        let switches = &mut all.switches;
        let names = &mut all.names;
        let held = &mut all.held;
        let mut issue = all.next as u32;
        let loaded = taking::load(
            numbers, powers, ticks, switches, names, held, &mut issue, name, bytes,
        );
        self.next = issue as u64;
        Answered {
            board: self,
            answer: model::answer_of(loaded),
            ticks: [0i64; BRANCHES],
        }
    }

    // A transistor on a card, by its issue number, and on the nodes of its roles: 13 for the slices, 12, 13, 14, 11,
    // 17, 15 or 18, 10.
    // (written into its callers, as `load` is)
    #[inline(always)]
    pub fn place(
        mut self,
        volts: &[i64],
        totals: &mut [i64],
        card: i64,
        nodes: [i64; ROLES],
    ) -> Answered
        requires { Reached self }
        ensures value { result ≡ handed_as (placed_lent (state_in self volts.now totals.old)
            card nodes) }
        ensures reached { Reached result.board }
        ensures totals_after { totals.new ≡ (placed_lent (state_in self volts.now totals.old)
            card nodes).state.totals }
    {
        let all = &mut self;
        let numbers = &all.numbers;
        let powers = &all.powers;
        let ticks = &all.ticks;
        let switches = &all.switches;
        let held = &all.held;
        let mut next = all.next as u32;
        let issues = &mut all.issues;
        let cards = &mut all.cards;
        let seats = &mut all.seats;
        let on = &mut all.nodes;
        let naming = &mut all.naming;
        let currents = &mut all.currents;
        let placed = place_aside::place(
            issues, cards, seats, on, naming, currents, &mut next, numbers, powers, ticks,
            switches, held, volts, totals, card, nodes,
        );
        self.next = next as u64;
        Answered {
            board: self,
            answer: model::answer_of(placed),
            ticks: [0i64; BRANCHES],
        }
    }

    // Nodes moved together, by a list of a node, its microvolts, a node, its microvolts and so on, the last pair of a
    // node holding: 13 for the slices, 1 where it is not 1 to 32 pairs, 13 for any pair, 15 or 18 where some transistor
    // would overload at the end, 10.
    // (written into its callers, as `load` is)
    #[inline(always)]
    pub fn move_all(mut self, volts: &mut [i64], totals: &mut [i64], pairs: &[i64]) -> Answered
        requires { Reached self }
        ensures value { result ≡ handed_as (moved_lent (state_in self volts.old totals.old)
            pairs.now) }
        ensures reached { Reached result.board }
        ensures volts_after { volts.new ≡ (moved_lent (state_in self volts.old totals.old)
            pairs.now).state.volts }
        ensures totals_after { totals.new ≡ (moved_lent (state_in self volts.old totals.old)
            pairs.now).state.totals }
    {
        let all = &mut self;
        let numbers = &all.numbers;
        let powers = &all.powers;
        let ticks = &all.ticks;
        let switches = &all.switches;
        let issues = &all.issues;
        let seats = &all.seats;
        let nodes = &all.nodes;
        let naming = &all.naming;
        let held = &mut all.currents;
        let moved = move_aside::move_all(
            volts, totals, held, numbers, powers, ticks, switches, issues, seats, nodes, naming,
            pairs,
        );
        Answered {
            board: self,
            answer: model::answer_of(moved),
            ticks: [0i64; BRANCHES],
        }
    }

    // One node: a list of one pair.
    pub fn move_to(
        self,
        volts: &mut [i64],
        totals: &mut [i64],
        node: i64,
        microvolts: i64,
    ) -> Answered
        requires { Reached self }
        ensures value { result ≡ handed_as (moved_lent (state_in self volts.old totals.old)
            (node ∷ microvolts ∷ [])) }
        ensures reached { Reached result.board }
        ensures volts_after { volts.new ≡ (moved_lent (state_in self volts.old totals.old)
            (node ∷ microvolts ∷ [])).state.volts }
        ensures totals_after { totals.new ≡ (moved_lent (state_in self volts.old totals.old)
            (node ∷ microvolts ∷ [])).state.totals }
    {
        self.move_all(volts, totals, &[node, microvolts])
    }

    // A transistor taken off, by its issue number: 13 for the slices, 12, 10. What it holds is taken out of the totals.
    // (written into its callers, as `load` is)
    #[inline(always)]
    pub fn lift(mut self, volts: &[i64], totals: &mut [i64], transistor: i64) -> Answered
        requires { Reached self }
        ensures value { result ≡ handed_as (lifted_lent (state_in self volts.now totals.old)
            transistor) }
        ensures reached { Reached result.board }
        ensures totals_after { totals.new ≡ (lifted_lent (state_in self volts.now totals.old)
            transistor).state.totals }
    {
        let all = &mut self;
        let issues = &mut all.issues;
        let cards = &mut all.cards;
        let seats = &mut all.seats;
        let nodes = &mut all.nodes;
        let sets = &mut all.naming;
        let left = &mut all.currents;
        let lifted = lift_aside::lift(
            issues, cards, seats, nodes, sets, left, volts, totals, transistor,
        );
        Answered {
            board: self,
            answer: model::answer_of(lifted),
            ticks: [0i64; BRANCHES],
        }
    }

    // A card given back, by its issue number: 12, 16.
    pub fn withdraw(mut self, card: i64) -> Answered
        requires { Reached self }
        ensures value { result ≡ given_as (withdrawn_of (bare (model_of self)) card) }
        ensures reached { Reached result.board }
    {
        let all = &mut self;
        let issues = &all.issues;
        let cards = &all.cards;
        let numbers = &mut all.numbers;
        let powers = &mut all.powers;
        let ticks = &mut all.ticks;
        let switches = &mut all.switches;
        let names = &mut all.names;
        let left = &mut all.held;
        let withdrawn = holding::withdraw(
            numbers, powers, ticks, switches, names, left, issues, cards, card,
        );
        Answered {
            board: self,
            answer: model::answer_of(withdrawn),
            ticks: [0i64; BRANCHES],
        }
    }

    // The highest issue number among the cards of a name: 2, 4.
    pub fn look_up(self, name: &[u8]) -> Answered
        requires { Reached self }
        ensures value { result ≡ given_as (looked_of (bare (model_of self)) name.now) }
        ensures reached { Reached result.board }
    {
        let held = &self.held;
        let names = &self.names;
        let found = looking::look_up(held, names, name);
        Answered {
            board: self,
            answer: model::answer_of(found),
            ticks: [0i64; BRANCHES],
        }
    }

    // A node's voltage in microvolts and its total in ticks, as the slices have them: 13 for the slices, then for the
    // node.
    pub fn read_node(self, volts: &[i64], totals: &[i64], node: i64) -> Answered
        requires { Reached self }
        ensures value { result ≡ handed_as (showed_lent (state_in self volts.now totals.now) node) }
        ensures reached { Reached result.board }
    {
        let shown = reading::read_node(volts, totals, node);
        Answered {
            board: self,
            answer: model::answer_of(shown),
            ticks: [0i64; BRANCHES],
        }
    }

    // The currents of a transistor's branches, by its issue number: 12.
    // (this and the next two read copies of the arrays, which spares a host's call a copy of the whole board)
    pub fn read_currents(self, transistor: i64) -> Answered
        requires { Reached self }
        ensures value { result ≡ given_as (opened_of (bare (model_of self)) transistor) }
        ensures reached { Reached result.board }
    {
        let standing = self.issues;
        let currents = self.currents;
        let read = reading::read_currents(&standing, &currents, transistor);
        Answered {
            board: self,
            answer: model::answer_of(read.and(Ok(Answer::Currents))),
            ticks: read.unwrap_or([0i64; BRANCHES]),
        }
    }

    // Who names a node: the issue numbers of its transistors in rising order, at the start of the list, and how many
    // they are: 13, then 5 where the list has not room for all.
    pub fn list_node(self, node: i64, list: &mut [u32]) -> Answered
        requires { Reached self }
        ensures value { result ≡ given_as (listed_of (bare (model_of self)) node (length list.old)) }
        ensures reached { Reached result.board }
        ensures list_after { list.new
            ≡ over (listed_of (bare (model_of self)) node (length list.old)).list list.old }
    {
        let given = self.issues;
        let naming = self.naming;
        let listed = roster::list_node(&given, &naming, node, list);
        Answered {
            board: self,
            answer: model::answer_of(listed),
            ticks: [0i64; BRANCHES],
        }
    }

    // A node summed up: how many transistors name it, on how many cards, and the largest size of a branch that starts
    // or ends there: 13.
    pub fn sum_up(self, node: i64) -> Answered
        requires { Reached self }
        ensures value { result ≡ given_as (summed_of (bare (model_of self)) node) }
        ensures reached { Reached result.board }
    {
        let kinds = self.cards;
        let nodes = self.nodes;
        let naming = self.naming;
        let currents = self.currents;
        let summed = summary::sum_up(&kinds, &nodes, &naming, &currents, node);
        Answered {
            board: self,
            answer: model::answer_of(summed),
            ticks: [0i64; BRANCHES],
        }
    }
}
