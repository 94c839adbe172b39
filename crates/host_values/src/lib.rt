// The values that the board answers a question with, in lent places, as a host in another language takes them: a node's
// numbers, how many were listed, a node summed up. Each place is left as it was where the answer has no such value.
#![tactic(auto)]

ghost use Rattle.std.specs.Prelude.{◌≡◌};
ghost use Rattle.host_words.specs.Words.{result_of};
ghost use Rattle.host_values.specs.Values.{voltage_over, total_over, count_over};
ghost use Rattle.host_values.specs.Values.{transistors_over, cards_over, largest_over};

use model::Answer;

// A node's numbers.
pub fn tell_node(a: Answer, microvolts: &mut i64, ticks: &mut i64) -> u32
    ensures value { result ≡ result_of a }
    ensures microvolts_after { microvolts.new ≡ voltage_over a microvolts.old }
    ensures ticks_after { ticks.new ≡ total_over a ticks.old }
{
    if let Answer::Node(v, t) = a {
        *microvolts = v;
        *ticks = t;
    }
    host_words::result_of(a)
}

// How many were listed.
pub fn tell_count(a: Answer, count: &mut u32) -> u32
    ensures value { result ≡ result_of a }
    ensures count_after { count.new ≡ count_over a count.old }
{
    if let Answer::Listed(n) = a {
        *count = n;
    }
    host_words::result_of(a)
}

// A node summed up.
pub fn tell_sum(a: Answer, transistors: &mut u32, cards: &mut u32, largest: &mut u64) -> u32
    ensures value { result ≡ result_of a }
    ensures transistors_after { transistors.new ≡ transistors_over a transistors.old }
    ensures cards_after { cards.new ≡ cards_over a cards.old }
    ensures largest_after { largest.new ≡ largest_over a largest.old }
{
    if let Answer::Summed(t, c, l) = a {
        *transistors = t;
        *cards = c;
        *largest = l;
    }
    host_words::result_of(a)
}
