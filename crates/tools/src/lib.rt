// The line tools, the match that picks one, and the loop over a piece of its input.
#![tactic(auto)]

ghost use Rattle.std.specs.Prelude.{◌≡◌};
ghost use Rattle.tools.specs.Names.{tool_named};
ghost use Rattle.tools.specs.Tools.{memory, GoodMemory};
ghost use Rattle.tools.specs.Props.{GoodMemory-prop};

use alpha::{tell_alpha_read, tell_alpha_write};
use bench::tell_bench;
use bursts::tell_burst;
use csim::{tell_export, tell_import};
use details::tell_details;
use fetch::{Gathered, start_gathered};
use flow::{Pending, Progress, Size};
use lines::{end_line, tell_call};
use mending::tell_mended;
use pool::Pool;
use session::{Ledger, Session, start_ledger};

// The tools: document 01's program, the calls of timers beside its lines, the bench, what command is at hand, bytes as they come off the line, applet commands mended, lines of +CSIM logs in and out, and alpha identifiers read and written.
#[derive(Clone, Copy)]
pub enum Tool {
    Lines,
    Calls,
    Bench,
    Details,
    Fetch,
    Mend,
    CsimImport,
    CsimExport,
    AlphaRead,
    AlphaWrite,
}

// The tools by their names.
const NAMES: [(&[u8], Tool); 10] = [
    (b"lines", Tool::Lines),
    (b"calls", Tool::Calls),
    (b"bench", Tool::Bench),
    (b"details", Tool::Details),
    (b"fetch", Tool::Fetch),
    (b"mend", Tool::Mend),
    (b"csim-import", Tool::CsimImport),
    (b"csim-export", Tool::CsimExport),
    (b"alpha-read", Tool::AlphaRead),
    (b"alpha-write", Tool::AlphaWrite),
];

// The tool that a word names.
pub fn tool_named(word: &[u8]) -> Option<Tool>
    ensures { result ≡ tool_named word.now }
{
    let found = NAMES.iter().find(|(name, _)| word == *name);
    found.map(|(_, tool)| *tool)
}

// All that is kept between two pieces of an input: whether the first line was read, what is kept of a line that is not whole yet, and the memory of the tools.
#[derive(Drop)]
pub struct Machine {
    pub begun: bool,
    pub pending: Pending,
    pub session: Session,
    pub gathered: [u8; Gathered::SIZE],
    ghost good: { GoodMemory (memory session.ledger session.pool gathered) } by { GoodMemory-prop (memory session.ledger session.pool gathered) },
}

impl Machine {
    ghost use Rattle.std.specs.Prelude.{false, [], ◌+◌, ◌≤◌, length, drop, replicate};
    ghost use Rattle.rules.specs.State.{start};
    ghost use Rattle.session.specs.Picture.{Shows};
    ghost use Rattle.fetch.specs.Gathers.{gathered_of};
    ghost use Rattle.flow.specs.Flow.{kept_size, printed_size, feeds, piece, last_piece};
    ghost use Rattle.flow.specs.Holds.{line_of, Says, Goes, Keeps, Fills};
    ghost use Rattle.tools.specs.Tools.{kept_in, ends};
    ghost use Rattle.tools.specs.Machines.{memory_of, held_by, reader_of};

    // The machine before the first byte: a fresh session, nothing gathered, and nothing of a line.
    pub fn new() -> Self
        ensures begun { result.begun ≡ false }
        ensures session { Shows (start []) result.session.ledger result.session.pool }
        ensures gathered { result.gathered ≡ gathered_of [] }
        ensures pending { (result.pending.len ≡ 0) × (result.pending.bytes ≡ replicate kept_size 0) }
    {
        let mut session = Session {
            ledger: [0; Ledger::SIZE],
            pool: [0; Pool::SIZE],
        };
        start_ledger(&mut session.ledger, b"");
        let mut gathered = [0; Gathered::SIZE];
        start_gathered(&mut gathered);
        Machine {
            begun: false,
            pending: Pending {
                bytes: [0; Size::KEPT],
                len: 0,
            },
            session,
            gathered,
        }
    }

    // Answers the line so far with a tool: prints what it says into `out` from `at` on, and tells the place behind it.
    fn answer(&mut self, tool: Tool, out: &mut [u8], at: usize) -> usize
        requires { at + printed_size ≤ length out.old }
        ensures says { Says kept_in (ends tool (kept_in self.old.begun (memory_of self.old)) (line_of self.old.pending)) (memory_of self.new) result out.old at out.new }
        ensures pending { self.new.pending ≡ self.old.pending }
    {
        let begun = self.begun;
        let pending = &self.pending;
        let line = &pending.bytes[..pending.len];
        let session = &mut self.session;
        let gathered = &mut self.gathered;
        match tool {
            Tool::Lines => end_line(begun, session, line, out, at),
            Tool::Calls => tell_call(begun, session, line, out, at),
            Tool::Bench => tell_bench(line, out, at),
            Tool::Details => tell_details(line, out, at),
            Tool::Fetch => tell_burst(begun, session, gathered, line, out, at),
            Tool::Mend => tell_mended(line, out, at),
            Tool::CsimImport => tell_import(line, out, at),
            Tool::CsimExport => tell_export(line, out, at),
            Tool::AlphaRead => tell_alpha_read(line, out, at),
            Tool::AlphaWrite => tell_alpha_write(line, out, at),
        }
    }

    // Reads a chunk from where it was read up to, to the end of one line or of the chunk; a line that is whole is answered.
    fn feed(&mut self, tool: Tool, chunk: &[u8], from: Progress, out: &mut [u8]) -> Progress
        requires { (from.next ≤ length chunk.now) × (from.at + printed_size ≤ length out.old) }
        ensures goes { Goes kept_in (feeds (ends tool) (reader_of self.old) (piece (drop from.next chunk.now))) (held_by self.new) result.at out.old from.at out.new }
        ensures keeps { Keeps result self.old.pending chunk.now from.next self.new.pending }
    {
        let Some(taken) = self.pending.gather(&chunk[from.next..]) else {
            return Progress {
                next: chunk.len(),
                at: from.at,
            };
        };
        let at = self.answer(tool, out, from.at);
        self.begun = true;
        self.pending.len = 0;
        Progress {
            next: from.next + taken,
            at,
        }
    }

    // Reads a chunk line by line, as far as the answers surely fit the output: what was read, and what is to be written.
    pub fn fill(&mut self, tool: Tool, chunk: &[u8], out: &mut [u8]) -> Progress
        ensures { Fills kept_in (ends tool) (reader_of self.old) chunk.now (held_by self.new) result out.old out.new }
    {
        let mut progress = Progress { next: 0, at: 0 };
        while progress.next < chunk.len() && out.len() - progress.at >= Size::PRINTED {
            progress = self.feed(tool, chunk, progress, out);
        }
        let pending = &mut self.pending;
        pending.bytes[pending.len..].fill(0);
        progress
    }

    // The input ends: what is left of it is a line, if there is anything.
    pub fn finish(&mut self, tool: Tool, out: &mut [u8]) -> Progress
        ensures { Fills kept_in (ends tool) (reader_of self.old) (last_piece (reader_of self.old)) (held_by self.new) result out.old out.new }
    {
        if self.pending.len == 0 {
            return self.fill(tool, b"", out);
        }
        self.fill(tool, b"\n", out)
    }
}
