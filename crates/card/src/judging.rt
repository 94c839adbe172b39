// Loading's tests on the clipped numbers, the first of them in `settings`, and the worked card.
ghost use Rattle.std.specs.Prelude.{◌≡◌, true};
ghost use Rattle.refusal.specs.Order.{tells};
ghost use Rattle.drawn.specs.OfLoading.Octave.{octave_good};
ghost use Rattle.drawn.specs.OfLoading.Numbers.{octave};
ghost use Rattle.card.specs.Judge.{card_from, reach_of, judge_numbers, told_judged};
ghost use Rattle.drawn.specs.OfLoading.inner.Mlf.{GoodMlf};

use crate::WorkedCard;
use drawn::clip::{WIDTH, numbers};
use drawn::working;
use drawn::working::Worked;
use refusal::Refusal;
use settings::octaves;
use settings::octaves::knee;

fn card(
    w: Worked,
    octave: u32,
    second: u32,
    knee: u32,
    exsub: bool,
    joined: bool,
    pnp: bool,
    close: bool,
    wide: bool,
) -> WorkedCard
    ensures { result ≡ card_from w octave second knee exsub joined pnp close wide }
{
    WorkedCard {
        sn: float::cut(w.sn),
        bulk: float::cut(w.bulk),
        side: float::cut(w.side),
        nonideal: float::cut(w.nonideal),
        ex: float::cut(w.ex),
        sub: float::cut(w.sub),
        sf: float::cut(w.sf),
        rex: float::cut(w.rex),
        rsub: float::cut(w.rsub),
        reverse: float::cut(w.reverse),
        ge: float::cut(w.ge),
        gbc: float::cut(w.gbc),
        gcc: float::cut(w.gcc),
        gblx: float::cut(w.gblx),
        gbli: float::cut(w.gbli),
        octave,
        second,
        knee,
        exsub,
        rcbli_zero: joined,
        pnp,
        rcblx_zero: close,
        wide,
    }
}

// 10, or the worked card.
fn reach(x: &[f64; WIDTH]) -> Result<WorkedCard, Refusal>
    requires good_mlf { GoodMlf x.now }
    requires x_value { octave_good (octave x.now) ≡ true }
    ensures { told_judged result ≡ tells (reach_of x.now) }
{
    let product = x[numbers::MLF] * x[numbers::OCTAVE];
    let second = octaves::second_of(product).ok_or(Refusal::OutOfReach)?;
    if !knee::is_knee(x[numbers::VLR]) {
        return Err(Refusal::OutOfReach);
    }
    let w = working::work(drawn::parameters(x));
    if !working::all_finite(w) {
        return Err(Refusal::OutOfReach);
    }
    let octave = octaves::nanovolts(x[numbers::OCTAVE]);
    let polarity = x[numbers::POLARITY];
    let vlr = x[numbers::VLR];
    let raised = knee::microvolts(vlr);
    Ok(card(
        w,
        octave,
        second,
        raised,
        x[numbers::EXSUB] == 1.0,
        x[numbers::RCBLI] == 0.0,
        polarity == settings::PNP,
        x[numbers::RCBLX] == 0.0,
        drawn::has_leads(x),
    ))
}

// 7, 8, 19, 9, 10, or the worked card.
pub(crate) fn judge_numbers(x: &[f64; WIDTH], spares: bool) -> Result<WorkedCard, Refusal>
    requires { GoodMlf x.now }
    ensures { told_judged result ≡ tells (judge_numbers spares x.now) }
{
    settings::first_wrong(x, spares)?;
    reach(x)
}
