// A line without the spaces at its ends.
#![tactic(auto)]

ghost use Rattle.std.specs.Prelude.{◌≡◌};
ghost use Rattle.trimming.specs.Trimmed.{from_first, to_last, trimmed};

// The line from its first byte on that is no space.
fn from_first(line: &[u8]) -> &[u8]
    ensures { result.now ≡ from_first line.now }
{
    let mut t = line;
    while let [first, rest @ ..] = t {
        if *first != b' ' {
            return t;
        }
        t = rest;
    }
    t
}

// The line to its last byte that is no space.
fn to_last(line: &[u8]) -> &[u8]
    ensures { result.now ≡ to_last line.now }
{
    let mut t = line;
    while let [rest @ .., last] = t {
        if *last != b' ' {
            return t;
        }
        t = rest;
    }
    t
}

// The line without the spaces at its ends.
pub fn trimmed(line: &[u8]) -> &[u8]
    ensures { result.now ≡ trimmed line.now }
{
    to_last(from_first(line))
}
