// A page: bytes written after those that are used. What there is no room for is left out.
#![tactic(auto)]

ghost use Rattle.std.specs.Prelude.{◌≡◌, take};
ghost use Rattle.page.specs.Page.{Writes, WritesAfter};

// Room for the bytes that wait to be written.
pub const ROOM: usize = 65536;

// Written in a lent buffer after its first `at` bytes; gives how many bytes are used then.
pub fn put(s: &[u8], out: &mut [u8], at: usize) -> usize
    ensures { WritesAfter s.now out.old at out.new result }
{
    if out.len() <= at {
        return at;
    }
    let kept = s.len().min(out.len() - at);
    out[at..at + kept].copy_from_slice(&s[..kept]);
    at + kept
}

// The first `used` bytes are written.
#[derive(Drop)]
pub struct Page<const N: usize> {
    pub bytes: [u8; N],
    pub used: usize,
}

impl<const N: usize> Page<N> {
    pub fn put(&mut self, s: &[u8])
        ensures { Writes s.now self.old self.new }
    {
        self.used = put(s, &mut self.bytes, self.used);
    }

    // The bytes that are written.
    pub fn written(&self) -> &[u8]
        ensures { result.now ≡ take self.now.used self.now.bytes }
    {
        &self.bytes[..self.used.min(N)]
    }
}
