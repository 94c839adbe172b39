// The first three words of a model line: `.model`, the name, the type.
#![tactic(auto)]

ghost use Rattle.std.specs.Prelude.{◌≡◌};
ghost use Rattle.name.specs.Name.{same};
ghost use Rattle.spelling.specs.Bytes.{bytes};
ghost use Rattle.line.specs.Line.{words_from, starts_in_space, typed, named, head_of};
ghost use Rattle.line.specs.inner.Steps.{head_told, Within};

use line::{Head, Polarity};
use refusal::Refusal;
use words::Span;

fn is_model(w: &[u8]) -> bool
    ensures { result ≡ same w.now (bytes ".model") }
{
    w == b".model".as_slice()
}

fn is_npn(w: &[u8]) -> bool
    ensures { result ≡ same w.now (bytes "npn") }
{
    w == b"npn".as_slice()
}

fn is_pnp(w: &[u8]) -> bool
    ensures { result ≡ same w.now (bytes "pnp") }
{
    w == b"pnp".as_slice()
}

// Whether a space stands first.
fn starts_in_space(line: &[u8]) -> bool
    ensures { result ≡ starts_in_space line.now }
{
    line.first() == Some(&b' ')
}

// The type, after a name that ends at a place.
fn type_word<'a>(line: &[u8], name: &'a [u8], end: usize) -> Result<Head<'a>, Refusal>
    ensures { (head_told line.now result ≡ typed name.now (words_from line.now end)) ×
        Within line.now result }
{
    let Some(Span { start, end: at }) = words::next_word(line, end) else {
        return Err(Refusal::BadLine);
    };
    let word = &line[start..at];
    let polarity = if is_npn(word) {
        Polarity::Npn
    } else if is_pnp(word) {
        Polarity::Pnp
    } else {
        return Err(Refusal::BadLine);
    };
    Ok(Head { name, polarity, at })
}

// The name, after `.model`, which ends at a place.
fn name_word(line: &[u8], at: usize) -> Result<Head<'_>, Refusal>
    ensures { (head_told line.now result ≡ named (words_from line.now at)) ×
        Within line.now result }
{
    let Some(Span { start, end }) = words::next_word(line, at) else {
        return Err(Refusal::BadLine);
    };
    let name = &line[start..end];
    if !name::is_asked(name) {
        return Err(Refusal::BadName);
    }
    type_word(line, name, end)
}

pub fn judge_head(line: &[u8]) -> Result<Head<'_>, Refusal>
    ensures { (head_told line.now result ≡ head_of line.now) × Within line.now result }
{
    if starts_in_space(line) {
        return Err(Refusal::BadLine);
    }
    let Some(Span { start, end }) = words::next_word(line, 0) else {
        return Err(Refusal::BadLine);
    };
    if !is_model(&line[start..end]) {
        return Err(Refusal::BadLine);
    }
    name_word(line, end)
}
