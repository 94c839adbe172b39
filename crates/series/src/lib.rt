// The numbers of a line after its first word, however many there are.
#![tactic(auto)]

ghost use Rattle.std.specs.Prelude.{◌≡◌};
ghost use Rattle.series.specs.Series.{series_of};

// Room for one pair more than a list may have: of a longer list so many are kept.
pub const ROOM: usize = 66;

// How many numbers a line has after its first word, and the first of them.
#[derive(Clone, Copy)]
pub struct Series {
    pub count: usize,
    pub numbers: [i64; ROOM],
}

// The words of a line after its first as numbers, where each is one.
pub fn series_of(line: &[u8]) -> Option<Series>
    ensures { result ≡ series_of line.now }
{
    let mut numbers = [0i64; ROOM];
    let mut count: usize = 0;
    let mut at = match words::next_word(line, 0) {
        Some(first) => first.end,
        None => line.len(),
    };
    while let Some(span) = words::next_word(line, at) {
        let x = spelling::number(&line[span.start..span.end])?;
        if count < ROOM {
            numbers[count] = x;
        }
        count += 1;
        at = span.end;
    }
    Some(Series { count, numbers })
}
