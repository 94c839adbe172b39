// A line of a text, by its number.
ghost use Rattle.std.specs.Prelude.{◌≡◌};
ghost use Rattle.explaining.specs.Lines.{line_at};

// Line k, from 0; no bytes where there are not so many lines.
pub(crate) fn line(text: &[u8], k: u64) -> &[u8]
    ensures { result.now ≡ line_at k text.now }
{
    text.split(|b| *b == b'\n')
        .nth(k as usize)
        .unwrap_or_default()
}
