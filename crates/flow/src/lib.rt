// The loop over the input of a line tool, for any tool: lines gathered from pieces of any division, and what is kept between two of them.
#![tactic(auto)]

ghost use Rattle.std.specs.Prelude.{◌≡◌, ◌==◌, ◌≤◌, length, position};
ghost use Rattle.flow.specs.Flow.{kept_size};

// The sizes that every tool has.
#[derive(Drop)]
pub struct Size {}

impl Size {
    // What is kept of a line: 8000 characters, and one more to see that it is longer.
    pub const KEPT: usize = 8001;

    // The most that a tool prints for a line.
    pub const PRINTED: usize = 8192;
}

// How far a piece of the input was read, and where the output goes on.
#[derive(Clone, Copy)]
pub struct Progress {
    pub next: usize,
    pub at: usize,
}

// Where the first line feed of a chunk stands.
fn line_feed(chunk: &[u8]) -> Option<usize>
    ensures { result ≡ position (λ c. c == 10) chunk.now }
{
    chunk.iter().position(|c| *c == b'\n')
}

// What is kept of a line that is not whole yet: so many bytes, at the front of a buffer.
#[derive(Drop)]
pub struct Pending {
    pub bytes: [u8; Size::KEPT],
    pub len: usize,
    ghost sized: { length bytes ≡ kept_size },
    ghost within: { len ≤ kept_size },
}

impl Pending {
    ghost use Rattle.flow.specs.LineReads.{LineReads};

    // Reads a chunk up to its first line feed or its end, and keeps what fits of it; tells how many bytes the line has of the chunk, its line feed included, or None where it goes on behind the chunk.
    pub fn gather(&mut self, chunk: &[u8]) -> Option<usize>
        ensures { LineReads result self.old chunk.now self.new }
    {
        let feed = line_feed(chunk);
        let part = &chunk[..feed.unwrap_or(chunk.len())];
        let fitting = (Size::KEPT - self.len).min(part.len());
        let end = self.len + fitting;
        self.bytes[self.len..end].copy_from_slice(&part[..fitting]);
        self.len = end;
        feed.map(|n| n + 1)
    }
}
