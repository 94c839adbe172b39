// The cards of a file of models filed, one after the other; its lines are those of `joining`.
#![tactic(auto)]

ghost use Rattle.std.specs.Prelude.{◌≡◌, ◌*◌, length, take};
ghost use Rattle.name.specs.Name.{name_length};
ghost use Rattle.line.specs.Answers.{record_bytes};
ghost use Rattle.filing.specs.Filed.{names_room, records_room, Files};
ghost use Rattle.filing.specs.inner.Cards.{FilesCard};

use bytes_le::WORD_BYTES;
use directory::MOST_CARDS;
use joining::LONGEST_LINE;
pub use joining::{Kind, LINE_ROOM, Line, bare, kind_of};
use line_read::RECORD_BYTES;
use refusal::Refusal;

// The bytes of the names and of the records of as many cards as a library holds.
pub const NAMES_ROOM: usize = MOST_CARDS * name::LENGTH;

pub const RECORDS_ROOM: usize = MOST_CARDS * RECORD_BYTES;

// The names of the first n cards; all there are where there are not so many.
fn filed(names: &[u8], n: usize) -> &[u8]
    requires { length names.now ≡ names_room }
    ensures { result.now ≡ take (name_length * n) names.now }
{
    if n < MOST_CARDS {
        return &names[0..name::LENGTH * n];
    }
    names
}

// A name and a record filed after n others.
fn file_card(
    name: &[u8; name::LENGTH],
    rec: &[u8; RECORD_BYTES],
    n: usize,
    names: &mut [u8],
    records: &mut [u8],
) -> Result<(), Refusal>
    requires names_len { length names.old ≡ names_room }
    requires records_len { length records.old ≡ records_room }
    ensures { FilesCard name.now rec.now n names.old records.old result
        names.new records.new }
{
    let low = bytes_le::u64_at(name, 0);
    let high = bytes_le::u64_at(name, WORD_BYTES);
    let twice = roll::holds(filed(names, n), low, high);
    if twice {
        return Err(Refusal::NameTwice);
    }
    if MOST_CARDS <= n {
        return Err(Refusal::Malformed);
    }
    library::copy(name, &mut names[name::LENGTH * n..]);
    library::copy(rec, &mut records[RECORD_BYTES * n..]);
    Ok(())
}

// Files the card of a joined line after n others: its name and its record go after theirs, and a refusal changes
// neither buffer.
pub fn file_line(line: &[u8], n: usize, names: &mut [u8], records: &mut [u8]) -> Result<(), Refusal>
    requires names_len { length names.old ≡ names_room }
    requires records_len { length records.old ≡ records_room }
    ensures { Files line.now n names.old records.old result names.new
        records.new }
{
    if LONGEST_LINE < line.len() {
        return Err(Refusal::BadLine);
    }
    let mut name = [0; name::LENGTH];
    let mut rec = [0; RECORD_BYTES];
    line_read::read_line(trimming::trimmed(line), &mut name, &mut rec)?;
    file_card(&name, &rec, n, names, records)
}
