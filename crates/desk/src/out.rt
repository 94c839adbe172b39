// What waits is written before a line whose answer might have no room, and when a script has been obeyed as far as it
// was read.
use page::{Page, ROOM};
use saying::ANSWERS;
use std::io;

// Room for the answer to the longest path that an argument gives.
const PATH_ROOM: usize = 131104;

// Writes what waits.
pub fn flush(rt: &HostRuntime, page: &mut Page<ROOM>) -> io::Result<()> {
    rt.write_all(page.written())?;
    page.used = 0;
    Ok(())
}

// Writes what waits where it leaves less room than the longest answer has.
pub fn make_room(rt: &HostRuntime, page: &mut Page<ROOM>) -> io::Result<()> {
    if ROOM - ANSWERS < page.used {
        flush(rt, page)?;
    }
    Ok(())
}

// Writes that a script cannot be read.
pub fn write_unreadable(rt: &HostRuntime, path: &[u8]) -> io::Result<()> {
    let mut text = Page {
        bytes: [0u8; PATH_ROOM],
        used: 0,
    };
    quoting::unreadable_line(path, &mut text);
    rt.write_all(text.written())
}
