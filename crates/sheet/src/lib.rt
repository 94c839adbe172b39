// What the desk's programs print. A text comes back as bytes with their count.
#![tactic(auto)]

ghost use Rattle.std.specs.Prelude.{◌≡◌, [], ◌∷◌};
ghost use Rattle.sheet.specs.Text.{shown, text_of};
ghost use Rattle.sheet.specs.Digits.{decimal_of, mask_digits, word_digits, hex_digits, signed_digits};
ghost use Rattle.sheet.specs.Lines.{label_line, told_line, listing_line, node_line, sheet_line};

pub use listed::bare_name;

mod gather; // gather.rt: bytes gathered one after the other
mod digits; // digits.rt: numbers in digits
mod lines; // lines.rt: what a line is made of

// How many hexadecimal digits a clip mask has, that of version 2 too, and a word of 64 bits.
const MASK_DIGITS: usize = 4;

const WIDE_DIGITS: usize = 6;

const WORD_DIGITS: usize = 16;

// Room for the longest line.
pub const ROOM: usize = 104;

// The first `len` bytes are the text; those after it are 0.
#[derive(Clone, Copy)]
pub struct Text {
    pub bytes: [u8; ROOM],
    pub len: usize,
}

impl Text {
    // The bytes of the text.
    pub fn shown(&self) -> &[u8]
        ensures { result.now ≡ shown self.now }
    {
        &self.bytes[..self.len.min(ROOM)]
    }
}

// A word and a number, as in `cards 3`.
pub fn label_line(label: &[u8], n: u64) -> Text
    ensures { result ≡ text_of (label_line label.now n) }
{
    let mut t = Text::empty();
    t.append(label);
    t.spaced(n);
    t.push(b'\n');
    t
}

// A refusal's number, and the transistor and the branch that it tells, as in `refused 15 3 6`.
pub fn told_line(number: u32, issue: u32, branch: u32) -> Text
    ensures { result ≡ text_of (told_line (number ∷ issue ∷ branch ∷ [])) }
{
    let mut t = Text::empty();
    t.append(b"refused");
    t.spaced(number as u64);
    t.spaced(issue as u64);
    t.spaced(branch as u64);
    t.push(b'\n');
    t
}

fn mask_width(wide: bool) -> usize
    ensures { result ≡ mask_digits wide }
{
    if wide { WIDE_DIGITS } else { MASK_DIGITS }
}

// A clip mask in hex digits, by whether its record is of version 2.
pub fn mask_digits(mask: u32, wide: bool) -> Text
    ensures { result ≡ text_of (hex_digits (mask_digits wide) mask) }
{
    let mut t = Text::empty();
    t.hex(mask as u64, mask_width(wide));
    t
}

// A word of 64 bits in hex digits.
pub fn word_digits(word: u64) -> Text
    ensures { result ≡ text_of (hex_digits word_digits word) }
{
    let mut t = Text::empty();
    t.hex(word, WORD_DIGITS);
    t
}

// A number in decimal digits, with a minus sign where it is below zero.
pub fn signed_digits(v: i64) -> Text
    ensures { result ≡ text_of (signed_digits v) }
{
    let mut t = Text::empty();
    t.signed(v);
    t
}

// A number without a sign.
pub fn decimal_digits(n: u64) -> Text
    ensures { result ≡ text_of (decimal_of n) }
{
    let mut t = Text::empty();
    t.decimal(n);
    t
}

// A card's line in the listing, from its name without padding and its record.
pub fn listing_line(name: &[u8], bytes: &[u8]) -> Text
    ensures { result ≡ text_of (listing_line name.now bytes.now) }
{
    let number = lines::judged(bytes);
    let mask = listed::listed_mask(number, lines::mask(bytes));
    let mut t = Text::empty();
    t.append(name);
    t.push(b' ');
    t.hex(mask as u64, mask_width(clip::is_wide(bytes)));
    t.spaced(number as u64);
    t.push(b'\n');
    t
}

// The answer to a node that is read.
pub fn node_line(node: u32, microvolts: i64, ticks: i64) -> Text
    ensures { result ≡ text_of (node_line node microvolts ticks) }
{
    let mut t = Text::empty();
    t.append(b"node ");
    t.reading(node, microvolts, ticks);
    t.push(b'\n');
    t
}

// A node's line in the bias sheet.
pub fn sheet_line(node: u32, microvolts: i64, ticks: i64) -> Text
    ensures { result ≡ text_of (sheet_line node microvolts ticks) }
{
    let mut t = Text::empty();
    t.reading(node, microvolts, ticks);
    t.push(b' ');
    t.amperes(ticks);
    t.push(b'\n');
    t
}
