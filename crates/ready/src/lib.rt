// A card made ready: what is worked once for it, and a ready card of zeros for a place that holds none.
#![tactic(auto)]

ghost use Rattle.std.specs.Prelude.{◌≡◌};
ghost use Rattle.card.specs.inner.Worked.{IsWorked};
ghost use Rattle.terms.specs.inner.Ready.{ready_of, no_ready};

use card::WorkedCard;
use terms::Ready;

// What is worked once for a card.
pub fn prepare(c: WorkedCard) -> Ready
    requires { IsWorked c }
    ensures { result ≡ ready_of c }
{
    let plain = octave::reciprocal_of(c.octave as u64);
    let second = octave::reciprocal_of(c.second as u64);
    let doubled = octave::reciprocal_of(2 * c.octave as u64);
    let table = octave::table();
    let knee = octave::exponential_at(&table, c.knee as u64, doubled);
    Ready {
        card: c,
        plain: plain,
        second: second,
        doubled: doubled,
        knee: knee,
        bulk: scaling::alone(c.bulk),
        side: scaling::alone(c.side),
        nonideal: scaling::alone(c.nonideal),
        ex: scaling::alone(c.ex),
        sub: scaling::alone(c.sub),
        sf: scaling::alone(c.sf),
        reverse: scaling::alone(c.reverse),
    }
}

// What stands where there is no card.
pub fn no_ready() -> Ready
    ensures { result ≡ no_ready }
{
    let none = octave::no_reciprocal();
    Ready {
        card: card::no_card(),
        plain: none,
        second: none,
        doubled: none,
        ..Ready::default()
    }
}
