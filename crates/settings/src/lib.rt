// Loading's tests on the clipped numbers that stand before any working, in their order.
#![tactic(auto)]

ghost use Rattle.std.specs.Prelude.{◌≡◌};
ghost use Rattle.octaves.specs.OfLoading.Numbers.{is_switch, is_polarity, settings_good};
ghost use Rattle.settings.specs.inner.Tests.{first_wrong};

pub use octaves;
use octaves::clip::{WIDTH, numbers};
use refusal::Refusal;

// The polarity of a PNP.
pub const PNP: f64 = -1.0;

// Whether a number is 0 or 1.
fn is_switch(x: f64) -> bool
    ensures { result ≡ is_switch x }
{
    x == 0.0 || x == 1.0
}

// Whether a number is +1 or -1.
fn is_polarity(x: f64) -> bool
    ensures { result ≡ is_polarity x }
{
    x == 1.0 || x == PNP
}

// What 8 asks: EXSUB a switch, a polarity, and good spare words.
fn settings_good(x: &[f64; WIDTH], spares: bool) -> bool
    ensures { result ≡ settings_good spares x.now }
{
    is_switch(x[numbers::EXSUB]) && is_polarity(x[numbers::POLARITY]) && spares
}

// 7, 8, 19, then 9.
#[tactic(auto, using(crate::proofs::Tests::wrong_level, crate::proofs::Tests::bad_exsub, crate::proofs::Tests::negative_icss, crate::proofs::Tests::bad_octave, crate::proofs::Tests::none_wrong,))]
pub fn first_wrong(x: &[f64; WIDTH], spares: bool) -> Result<(), Refusal>
    ensures { result ≡ first_wrong spares x.now }
{
    if x[numbers::LEVEL] != 504.0 {
        return Err(Refusal::WrongLevel);
    }
    if !settings_good(x, spares) {
        return Err(Refusal::BadExsub);
    }
    if x[numbers::ICSS] < 0.0 {
        return Err(Refusal::NegativeIcss);
    }
    if !octaves::is_octave(x[numbers::OCTAVE]) {
        return Err(Refusal::BadOctave);
    }
    Ok(())
}
