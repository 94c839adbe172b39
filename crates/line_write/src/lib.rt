// The model line of a card written: into a room of its own, and from there into the lent buffer where that has room.
#![tactic(auto)]

ghost use Rattle.std.specs.Prelude.{◌≡◌, ◌||◌, eqb, ◌<◌, ◌≤◌, length, take};
ghost use Rattle.name.specs.Name.{name_length};
ghost use Rattle.clip.specs.Record.{word_at};
ghost use Rattle.decimal_write.specs.Added.{line_room, Added};
ghost use Rattle.keys.specs.Keys.{plus_one, minus_one};
ghost use Rattle.line_write.specs.Text.{settled};
ghost use Rattle.line_write.specs.Answers.{room_for, Leaves, Writes};
ghost use Rattle.line_write.specs.inner.Parts.{head_of, good_text};

use decimal_write::LINE_ROOM;
use keys::{MINUS_ONE, PLUS_ONE};
use refusal::Refusal;

// Word i of a record.
fn word(rec: &[u8], i: usize) -> u64
    requires { i < 24 }
    ensures { result ≡ word_at rec.now i }
{
    bytes_le::u64_at(rec, 8 * i)
}

// Whether a word is a polarity's.
fn is_polarity(w: u64) -> bool
    ensures { result ≡ eqb w plus_one || eqb w minus_one }
{
    w == PLUS_ONE || w == MINUS_ONE
}

// Whether polarity and spare words are as a line can say them.
fn is_settled(rec: &[u8]) -> bool
    ensures { result ≡ settled rec.now }
{
    is_polarity(word(rec, clip::numbers::POLARITY))
        && word(rec, clip::numbers::SPARE) == 0
        && word(rec, clip::numbers::SPARE + 1) == 0
}

// `.model`, the name and the type: 27 bytes at most.
fn put_head(room: &mut [u8; LINE_ROOM], name: &[u8], pnp: bool) -> usize
    requires name_len_bound { length name.now ≤ name_length }
    ensures { (result ≤ 27) × Added room.old 0 room.new result (head_of name.now pnp) }
{
    let spaced = decimal_write::put_bytes(room, 0, b".model ");
    let named = decimal_write::put_bytes(room, spaced, name);
    if pnp {
        return decimal_write::put_bytes(room, named, b" pnp");
    }
    decimal_write::put_bytes(room, named, b" npn")
}

// The first n bytes of the room put into the buffer, where it has room for them.
fn leave(room: &[u8; LINE_ROOM], n: usize, line: &mut [u8]) -> Result<usize, Refusal>
    requires n_le_line_room { n ≤ line_room }
    ensures { Leaves (room_for line.old (take n room.now)) line.old result
        line.new }
{
    if line.len() < n {
        return Err(Refusal::ShortOutput);
    }
    library::copy(&room[..n], line);
    Ok(n)
}

// The line of a name and a record that are good.
fn write_good(name: &[u8], rec: &[u8], line: &mut [u8]) -> Result<usize, Refusal>
    requires { length name.now ≤ name_length }
    ensures { Leaves (good_text name.now rec.now line.old) line.old result
        line.new }
{
    let pnp = word(rec, clip::numbers::POLARITY) == MINUS_ONE;
    let mut room = [0; LINE_ROOM];
    let at = put_head(&mut room, name, pnp);
    let Some(n) = keyed::put_keys(rec, &mut room, at) else {
        return Err(Refusal::BadNumber);
    };
    leave(&room, n, line)
}

// Writes the line of a card, by its name without padding and its record, and answers its count of bytes: it goes to the
// start of the buffer, and a refusal changes nothing.
pub fn write_line(name: &[u8], rec: &[u8], line: &mut [u8]) -> Result<usize, Refusal>
    ensures { Writes name.now rec.now line.old result line.new }
{
    if !clip::is_wide(rec) {
        return Err(Refusal::Malformed);
    }
    if !name::is_asked(name) {
        return Err(Refusal::BadName);
    }
    if !is_settled(rec) {
        return Err(Refusal::BadExsub);
    }
    write_good(name, rec, line)
}
