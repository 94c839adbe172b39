// What the lines are made of.
ghost use Rattle.std.specs.Prelude.{◌≡◌};
ghost use Rattle.refusal.specs.Order.{number_told};
ghost use Rattle.clip.specs.Clip.{mask_of};
ghost use Rattle.card.specs.Judge.{judge_of};
ghost use Rattle.sheet.specs.Text.{Adds};
ghost use Rattle.sheet.specs.Lines.{reading_of};

use crate::Text;

// The number that loading gives of a record: 0 where it takes it.
pub(crate) fn judged(bytes: &[u8]) -> u32
    ensures { result ≡ number_told (judge_of bytes.now) }
{
    match card::judge(bytes) {
        Ok(_) => 0,
        Err(f) => refusal::number(f),
    }
}

// The mask that clipping gives of a record: 0 where it refuses it.
pub(crate) fn mask(bytes: &[u8]) -> u32
    ensures { result ≡ mask_of bytes.now }
{
    match card::clip(bytes) {
        Ok(clipping) => clipping.mask,
        Err(_) => 0,
    }
}

impl Text {
    // A node, its microvolts and its ticks.
    pub(crate) fn reading(&mut self, node: u32, microvolts: i64, ticks: i64)
        ensures { Adds self.old (reading_of node microvolts ticks) self.new }
    {
        self.decimal(node as u64);
        self.push(b' ');
        self.signed(microvolts);
        self.push(b' ');
        self.signed(ticks);
    }
}
