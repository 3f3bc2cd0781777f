// Mending the frame of an applet, as a line tool: the outer length put right, lengths shortened, and all removed from the first fault on.
#![tactic(auto)]

ghost use Rattle.std.specs.Prelude.{◌∷◌, ◌+◌, ◌≤◌, ◌<◌, length, drop};
ghost use Rattle.std.proofs.Math.Option.{some};
ghost use Rattle.rules.specs.Lines.{hex, decimal};
ghost use Rattle.text.specs.Sizes.{frame_cap, decimal_cap};
ghost use Rattle.text.specs.Prints.{Prints};
ghost use Rattle.mending.specs.Mends.{mend_from, framing, mends_behind};
ghost use Rattle.mending.specs.Printed.{room, change_cap, frame_room, objects_cap, changes_text, mending_line, frame_line, mend_line};
ghost use Rattle.mending.specs.Places.{LengthAt, Measures, Finds, outer_place, head_at, shortened_text, outer_text};

use objects::{tag_at, write_length};
use octets;
use rules::Refusal;
use text::{Line, answer, print_bytes, print_char, print_decimal, print_refusal};

// A length in either form: what it says, where its shortest form begins, and the place behind it.
#[derive(Clone, Copy)]
struct Length {
    said: usize,
    kept: usize,
    start: usize,
}

// An object: the place of its length, from where on it is kept behind its tag, and the place behind it.
#[derive(Clone, Copy)]
struct Object {
    sized: usize,
    kept: usize,
    next: usize,
}

// The first byte of a command.
const COMMAND: u8 = 0xD0;

// The place of the outer length.
const OUTER: usize = 1;

// The most bytes of objects in a command of 256 bytes.
const OBJECTS_CAP: usize = 253;

// The length at `at`: as the rules read it, or 81 and a byte below 80, of which that byte is the shortest form.
fn length_at(s: &[u8], at: usize) -> Option<Length>
    ensures { Measures result s.now at }
{
    if let Some(length) = objects::length_at(s, at) {
        return Some(Length {
            said: length.count,
            kept: at,
            start: length.start,
        });
    }
    let rest = s.get(at..)?;
    if rest.len() < 2 || rest[0] != 0x81 {
        return None;
    }
    Some(Length {
        said: usize::from(rest[1]),
        kept: at + 1,
        start: at + 2,
    })
}

// The object at `at`: a tag, a length in either form, a value that stands whole.
fn object_at(s: &[u8], at: usize) -> Option<Object>
    ensures { Finds result s.now at }
{
    let tag = tag_at(s, at)?;
    let length = length_at(s, tag.sized)?;
    if s.len() - length.start < length.said {
        return None;
    }
    Some(Object {
        sized: tag.sized,
        kept: length.kept,
        next: length.start + length.said,
    })
}

// Writes the mended objects from `from` on to the front of `out`, and tells how many bytes they are.
fn mend_objects(s: &[u8], from: usize, out: &mut [u8]) -> usize
    requires { length s.now ≤ length out.old }
    ensures { Prints (mend_from from (drop from s.now)).bytes result out.old 0 out.new }
{
    let mut at = from;
    let mut count: usize = 0;
    while let Some(Object { sized, kept, next }) = object_at(s, at) {
        octets::put_part(out, count, s, at, sized);
        let tagged = count + (sized - at);
        octets::put_part(out, tagged, s, kept, next);
        (at, count) = (next, tagged + (next - kept));
    }
    count
}

// Prints a change, a blank, its letter and its place, and tells the place behind it.
fn print_change(out: &mut [u8], at: usize, letter: u8, place: usize) -> usize
    requires { (place < decimal_cap) × (at + length (32 ∷ letter ∷ decimal place) ≤ length out.old) }
    ensures { Prints (32 ∷ letter ∷ decimal place) result out.old at out.new }
{
    let lettered = print_char(out, at, b' ');
    let placed = print_char(out, lettered, letter);
    print_decimal(out, placed, place)
}

// Prints S for an object whose length is shortened, and tells the place behind it.
fn print_shortened(out: &mut [u8], at: usize, object: Object) -> usize
    requires { (object.sized < decimal_cap) × (at + length (shortened_text object.sized object.kept) ≤ length out.old) }
    ensures { Prints (shortened_text object.sized object.kept) result out.old at out.new }
{
    if object.sized < object.kept {
        return print_change(out, at, b'S', object.sized);
    }
    at
}

// Prints the changes of the objects from `from` on, and tells the place behind them.
fn print_changes(s: &[u8], from: usize, out: &mut [u8], start: usize) -> usize
    requires { (length s.now ≤ frame_cap) × (start + length (changes_text (mend_from from (drop from s.now)).changes) ≤ length out.old) }
    ensures { Prints (changes_text (mend_from from (drop from s.now)).changes) result out.old start out.new }
{
    let mut at = from;
    let mut to = start;
    while let Some(object) = object_at(s, at) {
        to = print_shortened(out, to, object);
        at = object.next;
    }
    if at < s.len() {
        return print_change(out, to, b'T', at);
    }
    to
}

// Prints L where the outer length said another number than there are bytes, or said it in two bytes where one does; tells the place behind it.
fn print_outer(out: &mut [u8], at: usize, outer: Length, count: usize) -> usize
    requires { at + change_cap ≤ length out.old }
    ensures { Prints (outer_text outer.said outer.kept count) result out.old at out.new }
{
    if outer.said != count || outer.kept != OUTER {
        return print_change(out, at, b'L', OUTER);
    }
    at
}

// Prints the command that has these objects, and tells the place behind it.
fn print_frame(out: &mut [u8], at: usize, objects: &[u8]) -> usize
    requires { (length objects.now ≤ objects_cap) × (at + frame_room ≤ length out.old) }
    ensures { Prints (hex (framing objects.now)) result out.old at out.new }
{
    let mut head = [0u8; 3];
    let size = write_length(&mut head, 0, COMMAND, objects.len() as u8);
    let headed = print_bytes(out, at, &head[..size]);
    print_bytes(out, headed, objects)
}

// Prints the mended frame and the changes of what is behind an outer length, or R16; tells the place behind them.
fn print_behind(s: &[u8], outer: Length, out: &mut [u8], at: usize) -> usize
    requires { LengthAt s.now outer_place outer.said outer.kept outer.start × (length s.now ≤ frame_cap) × (at + room ≤ length out.old) }
    ensures { Prints (mending_line (mends_behind (head_at s.now outer.start))) result out.old at out.new }
{
    let mut objects = [0u8; Line::FRAME];
    let count = mend_objects(s, outer.start, &mut objects);
    if count == 0 || OBJECTS_CAP < count {
        return print_refusal(out, at, Refusal::Unmendable);
    }
    let framed = print_frame(out, at, &objects[..count]);
    let told = print_outer(out, framed, outer, count);
    let listed = print_changes(s, outer.start, out, told);
    print_char(out, listed, b'\n')
}

// Prints the mended frame and its changes, R16 where it cannot be mended, or R9 for no bytes; tells the place behind them.
fn print_mended(s: &[u8], out: &mut [u8], at: usize) -> usize
    requires { (length s.now ≤ frame_cap) × (at + room ≤ length out.old) }
    ensures { Prints (frame_line (some s.now)) result out.old at out.new }
{
    if s.is_empty() {
        return print_refusal(out, at, Refusal::Unreadable);
    }
    if s[0] != COMMAND {
        return print_refusal(out, at, Refusal::Unmendable);
    }
    let Some(outer) = length_at(s, OUTER) else {
        return print_refusal(out, at, Refusal::Unmendable);
    };
    print_behind(s, outer, out, at)
}

// Prints the mended frame of a line and its changes, R9 where the line is unreadable, R16 where it cannot be mended; tells the place behind them.
pub fn tell_mended(line: &[u8], out: &mut [u8], at: usize) -> usize
    requires { at + room ≤ length out.old }
    ensures { Prints (mend_line line.now) result out.old at out.new }
{
    answer(print_mended, line, out, at)
}
