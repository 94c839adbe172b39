// The keys of a card's line with their numbers, put one after the other.
#![tactic(auto)]

ghost use Rattle.std.specs.Prelude.{◌≡◌, ◌<◌, ◌≤◌, ◌+◌, length};
ghost use Rattle.decimal_write.specs.Added.{line_room, Added};
ghost use Rattle.keys.specs.Keys.{key_count, key_lengths};
ghost use Rattle.keyed.specs.inner.Parts.{key_start, PutKey, PutKeys};

use bytes_le::WORD_BYTES;
use decimal::PowersOfTen;
use decimal_write::LINE_ROOM;
use keys::{KEYS, PackedKeys};

// What a line is written from: the powers of ten, and the keys as numbers with their lengths.
#[derive(Drop)]
struct Tables {
    tens: PowersOfTen,
    packed: PackedKeys,
    lengths: [usize; KEYS],
    ghost letters: { lengths ≡ key_lengths },
}

// A space, a key and `=`: eight bytes at most.
fn put_key(tables: &Tables, room: &mut [u8; LINE_ROOM], at: usize, k: usize) -> usize
    requires at_bound { at + 8 ≤ line_room }
    requires k_lt_key_count { k < key_count }
    ensures { (result ≤ at + 8) × Added room.old at room.new result (key_start k) }
{
    let spaced = decimal_write::put_bytes(room, at, b" ");
    let letters = copying::bytes(tables.packed.numbers[k]);
    let n = tables.lengths[k];
    let keyed = decimal_write::put_bytes(room, spaced, &letters[0..n]);
    decimal_write::put_bytes(room, keyed, b"=")
}

// A key with its number: 28 bytes at most. The answer is where it ends, unless the number has no form.
fn put_keyed(
    tables: &Tables,
    room: &mut [u8; LINE_ROOM],
    at: usize,
    k: usize,
    w: u64,
) -> Option<usize>
    requires at_bound { at + 28 ≤ line_room }
    requires k_lt_key_count { k < key_count }
    ensures { PutKey room.old at room.new k w result }
{
    let x = shortest::form_of(&tables.tens, w)?;
    let next = put_key(tables, room, at, k);
    Some(decimal_write::put_number(room, next, x))
}

// All keys of a record, after so many bytes: where they end, unless a number has no form.
pub fn put_keys(rec: &[u8], room: &mut [u8; LINE_ROOM], from: usize) -> Option<usize>
    requires from_bound { from ≤ 27 }
    ensures { PutKeys rec.now room.old from room.new result }
{
    let tables = Tables {
        tens: decimal::tens(),
        packed: keys::packed(),
        lengths: keys::lengths(),
    };
    let mut at = from;
    for k in 0..KEYS {
        let w = bytes_le::u64_at(rec, WORD_BYTES * k);
        at = put_keyed(&tables, room, at, k, w)?;
    }
    Some(at)
}
