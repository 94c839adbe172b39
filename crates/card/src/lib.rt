// A card: its record judged for loading, and worked to what the branches need.
#![tactic(auto)]

ghost use Rattle.std.specs.Prelude.{◌≡◌};
ghost use Rattle.refusal.specs.Order.{tells};
ghost use Rattle.card.specs.Judge.{judge_of, told_judged, no_worked};

mod judging; // judging.rt: the tests of loading, in their order

use drawn::clip;
pub use drawn::clip::{Clipping, WIDTH, clip, right_length};
use refusal::Refusal;

// What the branches need of a card: fifteen values as a * 2^b, the two octaves in nanovolts, V_Lr, and five switches.
#[derive(Clone, Copy, Default)]
pub struct WorkedCard {
    pub sn: float::Split,
    pub bulk: float::Split,
    pub side: float::Split,
    pub nonideal: float::Split,
    pub ex: float::Split,
    pub sub: float::Split,
    pub sf: float::Split,
    pub rex: float::Split,
    pub rsub: float::Split,
    // the eighth branch's own current
    pub reverse: float::Split,
    // the resistors' conductances at a microvolt: E-E1, B-B1, C-C3, C3-C4 and C4-C1; 0 where there is none
    pub ge: float::Split,
    pub gbc: float::Split,
    pub gcc: float::Split,
    pub gblx: float::Split,
    pub gbli: float::Split,
    pub octave: u32,
    pub second: u32,
    // V_Lr in whole microvolts, raised by 5 V
    pub knee: u32,
    // EXSUB is 1
    pub exsub: bool,
    // R_Cbli is 0: C4 and C1 are one node
    pub rcbli_zero: bool,
    // the polarity is -1
    pub pnp: bool,
    // R_Cblx is 0: C3 and C4 are one node
    pub rcblx_zero: bool,
    // the card has series resistors, and so all eleven roles
    pub wide: bool,
}

// What stands where there is no card.
pub fn no_card() -> WorkedCard
    ensures { result ≡ no_worked }
{
    let none = float::no_split();
    WorkedCard {
        sn: none,
        bulk: none,
        side: none,
        nonideal: none,
        ex: none,
        sub: none,
        sf: none,
        rex: none,
        rsub: none,
        reverse: none,
        ge: none,
        gbc: none,
        gcc: none,
        gblx: none,
        gbli: none,
        ..WorkedCard::default()
    }
}

// What loading says of a record, its name and its place apart: 1, 6, 7, 8, 19, 9, 10.
pub fn judge(bytes: &[u8]) -> Result<WorkedCard, Refusal>
    ensures { told_judged result ≡ tells (judge_of bytes.now) }
{
    let given = clip(bytes)?.numbers;
    let numbers = missing::filled(clip::is_wide(bytes), given);
    judging::judge_numbers(&numbers, missing::spares_good(bytes))
}
