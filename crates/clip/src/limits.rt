// The clip rules: which a parameter has, and what it does to a number.
ghost use Rattle.std.specs.Prelude.{◌≡◌};
ghost use Rattle.clip.specs.Limits.{rule_of, plain_of, clip_to};

use crate::numbers;

#[derive(Clone, Copy)]
pub enum Rule {
    Free,
    AtLeast(f64),
    Between(f64, f64),
}

// The rule of parameter number i. beta_ri has the device model's own limit.
pub(crate) fn rule_of(i: usize) -> Rule
    ensures { result ≡ rule_of i }
{
    match i {
        numbers::MULT..=numbers::IS
        | numbers::IBF
        | numbers::ISS
        | numbers::RCBLX..=numbers::RCBLI
        | numbers::IBR => Rule::AtLeast(0.0),
        numbers::IK | numbers::IKS => Rule::AtLeast(1e-12),
        numbers::BF => Rule::AtLeast(1e-4),
        numbers::XIBI | numbers::EXSUB => Rule::Between(0.0, 1.0),
        numbers::MLF => Rule::AtLeast(0.1),
        numbers::BRI => Rule::AtLeast(1e-10),
        numbers::RE..=numbers::RCC => Rule::AtLeast(0.001),
        _ => Rule::Free,
    }
}

// +0 for a zero of either sign.
fn plain(x: f64) -> f64
    ensures { result ≡ plain_of x }
{
    if x == 0.0 { 0.0 } else { x }
}

pub(crate) fn apply(rule: Rule, x: f64) -> f64
    ensures { result ≡ clip_to rule x }
{
    match rule {
        Rule::Free => plain(x),
        Rule::AtLeast(low) => { if x < low { plain(low) } else { plain(x) } }
        Rule::Between(low, high) => {
            if x < low {
                plain(low)
            } else if high < x {
                plain(high)
            } else {
                plain(x)
            }
        }
    }
}
