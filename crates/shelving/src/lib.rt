// The library held, and a line obeyed that asks it or nobody. It fills the start of a buffer, and its own header says
// how long it is. The answer is put on the page.
#![tactic(auto)]

ghost use Rattle.std.specs.Prelude.{◌≡◌, take};
ghost use Rattle.page.specs.Page.{Writes};
ghost use Rattle.library.specs.Unique.{as_reading};
ghost use Rattle.clipped.specs.Clipped.{clip_line};
ghost use Rattle.shelving.specs.Shelf.{held_of, kept_over, brought, judged, library_line, shelf_with};
ghost use Rattle.shelving.specs.Shelf.{mending_held, mended_line, mended_shelf};
ghost use Rattle.shelving.specs.Shelf.{words_if, card_place, clip_said, card_clipped, model_said, card_model};
ghost use Rattle.shelving.specs.Apart.{apart_said, apart_shelf};

use answers::{Answer, answer_line};
use asks::Apart;
use card::Clipping;
use library::Contents;
use page::{Page, ROOM};
use refusal::Refusal;
use saying::{part, put_refused};
use words::Words;

// One byte more than the longest library.
pub const MOST: usize = 53265;

// Room for the longest model line.
const MODEL_ROOM: usize = 640;

// The library held: the first bytes of the shelf, as many as its header says.
pub fn held(shelf: &[u8]) -> &[u8]
    ensures { result.now ≡ held_of shelf.now }
{
    part(shelf, 0, bytes_le::u32_at(shelf, 12) as usize)
}

// What a library holds, or why it is none.
fn judge(bytes: &[u8]) -> Result<Contents, Refusal>
    ensures { result ≡ as_reading (judged bytes.now) }
{
    let mut names = [0u8; 4096];
    let mut words = [0u64; 6144];
    library::read(bytes, &mut names, &mut words)
}

// Bytes put at the start of the shelf, as many as have room.
fn keep(bytes: &[u8], shelf: &mut [u8; MOST])
    ensures { shelf.new ≡ kept_over bytes.now shelf.old }
{
    library::copy(&bytes[..MOST.min(bytes.len())], shelf);
}

// The n bytes that were read become the library held, where they are a library.
pub fn keep_library(n: usize, read: &[u8; MOST], held: &mut [u8; MOST], page: &mut Page<ROOM>)
    ensures { Writes (library_line (judged (brought n read.now))) page.old page.new
        × (held.new ≡ shelf_with (brought n read.now) held.old) }
{
    let bytes = part(read, 0, n);
    match judge(bytes) {
        Ok(contents) => {
            keep(bytes, held);
            answer_line(Answer::Library(contents.cards), page);
        }
        Err(f) => put_refused(f, page),
    }
}

// The library held is replaced by what mending makes of it.
fn mend(shelf: &mut [u8; MOST], page: &mut Page<ROOM>)
    ensures { Writes (mended_line (mending_held shelf.old)) page.old page.new × (shelf.new ≡ mended_shelf shelf.old) }
{
    let mut mended = [0u8; MOST];
    match mending::mend(held(shelf), &mut mended) {
        Ok(n) => {
            keep(held(&mended), shelf);
            answer_line(Answer::Mended(n), page);
        }
        Err(f) => put_refused(f, page),
    }
}

// Where the record of a card begins.
fn find(name: &[u8], library: &[u8], page: &mut Page<ROOM>)
    ensures { Writes (card_place name.now library.now) page.old page.new }
{
    match library::locate(library, name) {
        Ok(place) => answer_line(Answer::Offset(place.at), page),
        Err(f) => put_refused(f, page),
    }
}

// A clipped record: as many numbers as it has words.
fn put_clipping(clipping: Clipping, wide: bool, page: &mut Page<ROOM>)
    ensures { Writes (clip_line clipping.mask wide (take (words_if wide) clipping.numbers)) page.old page.new }
{
    let count = if wide { clip::WIDTH } else { clip::NARROW };
    clipped::clip_line(clipping.mask, wide, &clipping.numbers[..count], page);
}

// The line of a record, or why it is not taken.
fn clip_record(bytes: &[u8], page: &mut Page<ROOM>)
    ensures { Writes (clip_said bytes.now) page.old page.new }
{
    match card::clip(bytes) {
        Ok(clipping) => put_clipping(clipping, clip::is_wide(bytes), page),
        Err(f) => put_refused(f, page),
    }
}

// The line of a card's record.
fn clip(name: &[u8], library: &[u8], page: &mut Page<ROOM>)
    ensures { Writes (card_clipped name.now library.now) page.old page.new }
{
    match library::locate(library, name) {
        Ok(place) => clip_record(part(library, place.at, place.size), page),
        Err(f) => put_refused(f, page),
    }
}

// The model line of a record by this name.
fn write_model(name: &[u8], rec: &[u8], page: &mut Page<ROOM>)
    ensures { Writes (model_said name.now rec.now) page.old page.new }
{
    let mut line = [0u8; MODEL_ROOM];
    match line_write::write_line(name, rec, &mut line) {
        Ok(n) => quoting::model_line(part(&line, 0, n), page),
        Err(f) => put_refused(f, page),
    }
}

// The model line of a card.
fn model(name: &[u8], library: &[u8], page: &mut Page<ROOM>)
    ensures { Writes (card_model name.now library.now) page.old page.new }
{
    match library::locate(library, name) {
        Ok(place) => write_model(name, part(library, place.at, place.size), page),
        Err(f) => put_refused(f, page),
    }
}

// A line of these words that asks nothing of the board.
pub fn obey_apart(
    what: Apart,
    words: Words,
    line: &[u8],
    shelf: &mut [u8; MOST],
    page: &mut Page<ROOM>,
)
    ensures { Writes (apart_said what words line.now shelf.old) page.old page.new
        × (shelf.new ≡ apart_shelf what shelf.old) }
{
    let name = words::word(line, words, 1);
    match what {
        Apart::Nothing => {}
        Apart::TooLong => answer_line(Answer::TooLong, page),
        Apart::Error => quoting::error_line(words::word(line, words, 0), page),
        Apart::Find => find(name, held(shelf), page),
        Apart::Clip => clip(name, held(shelf), page),
        Apart::Mend => mend(shelf, page),
        Apart::Model => model(name, held(shelf), page),
    }
}
