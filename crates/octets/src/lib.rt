// Leaves on byte slices. Each contract is one equation of lists, which gives every byte.
#![tactic(auto)]

ghost use Rattle.std.specs.Prelude.{◌≡◌, ◌+◌, ◌-◌, ◌≤◌, length};
ghost use Rattle.octets.specs.Parts.{part, pasted, cleared, moved, cut_out, spread};

// Writes `s` into `d` from `at` on.
// Kept: a loop, since `copy_from_slice` calls memmove, which a firmware's C library would have to bring.
pub fn put(d: &mut [u8], at: usize, s: &[u8])
    requires { at + length s.now ≤ length d.old }
    ensures { d.new ≡ pasted d.old at s.now }
{
    for i in 0..s.len() {
        d[at + i] = s[i];
    }
}

// Writes 0 over the bytes from `at` up to `end`.
#[tactic(auto, using(crate::proofs::Pastes::paste_mid, crate::proofs::Copies::length_part), unfolding(crate::specs::Parts::cleared))]
pub fn clear(d: &mut [u8], at: usize, end: usize)
    requires { (at ≤ end) × (end ≤ length d.old) }
    ensures { d.new ≡ cleared d.old at end }
{
    d[at..end].fill(0);
}

// Moves the bytes from `from` up to `end` down to `to`; what stood above them stays.
// Kept: a loop, since `copy_within` takes its range by a trait whose bounds are structures that lie otherwise on machines of 32 bits (targets/README.md).
fn move_down(d: &mut [u8], to: usize, from: usize, end: usize)
    requires { (to ≤ from) × (from ≤ end) × (end ≤ length d.old) }
    ensures { d.new ≡ moved d.old to from end }
{
    for i in 0..end - from {
        d[to + i] = d[from + i];
    }
}

// Moves the bytes from `from` up to `end` up to `to`; what stood below them stays.
// Kept: a loop, as in `move_down`.
fn move_up(d: &mut [u8], to: usize, from: usize, end: usize)
    requires { (from ≤ to) × (from ≤ end) × (to + (end - from) ≤ length d.old) }
    ensures { d.new ≡ moved d.old to from end }
{
    for n in (0..end - from).rev() {
        d[to + n] = d[from + n];
    }
}

// Takes the `k` bytes from `at` out: those up to `end` move down, and the last `k` of them are 0.
#[tactic(auto, using(crate::proofs::Pastes::cut_is))]
pub fn cut(d: &mut [u8], at: usize, k: usize, end: usize)
    requires { (at + k ≤ end) × (end ≤ length d.old) }
    ensures { d.new ≡ cut_out d.old at k end }
{
    move_down(d, at, at + k, end);
    clear(d, end - k, end);
}

// Puts `k` zeros in at `at`: those up to `end` move up, over the `k` bytes past `end`.
#[tactic(auto, using(crate::proofs::Pastes::spread_is))]
pub fn spread_at(d: &mut [u8], at: usize, k: usize, end: usize)
    requires { (at ≤ end) × (end + k ≤ length d.old) }
    ensures { d.new ≡ spread d.old at k end }
{
    move_up(d, at + k, at, end);
    clear(d, at, at + k);
}

// Writes the bytes of `s` from `from` up to `end` into `d` from `at` on.
pub fn put_part(d: &mut [u8], at: usize, s: &[u8], from: usize, end: usize)
    requires { (from ≤ end) × (end ≤ length s.now) × (at + (end - from) ≤ length d.old) }
    ensures { d.new ≡ pasted d.old at (part from end s.now) }
{
    put(d, at, &s[from..end]);
}
