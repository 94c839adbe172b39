// What a host's calls do that ask a library: it is read out into lent buffers, and a card is found in it. The result is
// 0 or a refusal's number, and a refusal leaves every lent place as it was.
#![tactic(auto)]

ghost use Rattle.host_shelf.specs.Shelf.{ReadOut, Found};

// The names and the words of a library go to the start of two buffers, the count of its cards and its version to two
// places: 1, 2, 3, 5.
pub fn read(
    library: &[u8],
    names: &mut [u8],
    words: &mut [u64],
    cards: &mut u32,
    version: &mut u32,
) -> u32
    ensures { ReadOut library.now names.old names.new words.old
        words.new cards.old cards.new version.old version.new result }
{
    match library::read(library, names, words) {
        Ok(contents) => {
            *cards = contents.cards;
            *version = contents.version as u32;
            0
        }
        Err(f) => refusal::number(f),
    }
}

// The place of a card's record in a library and its count of bytes, by the card's name: 1, 2, 3, 2, 4.
pub fn find(library: &[u8], name: &[u8], at: &mut usize, size: &mut usize) -> u32
    ensures { Found library.now name.now at.old at.new
        size.old size.new result }
{
    match library::locate(library, name) {
        Ok(place) => {
            *at = place.at;
            *size = place.size;
            0
        }
        Err(f) => refusal::number(f),
    }
}
