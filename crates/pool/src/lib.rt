// The pool's numbers, and what a grant means in cells.
#![tactic(auto)]

ghost use Rattle.std.specs.Prelude.{◌≡◌, ◌*◌, ◌≤◌};
ghost use Rattle.rules.specs.Pool.{cells, grant_for};

// The pool that all channels share.
#[derive(Drop)]
pub struct Pool {}

impl Pool {
    pub const CELLS: usize = 256;

    pub const CELL_SIZE: usize = 32;

    pub const GRANT_CAP: u16 = 1500;

    pub const SIZE: usize = 8192;

    // The cells that a grant promises each way: its 32nd part, rounded up.
    #[tactic(auto, unfolding(rules::specs::Pool::cells))]
    pub fn cells(grant: u16) -> usize
        ensures { result ≡ cells grant }
    {
        usize::from(grant).div_ceil(Pool::CELL_SIZE)
    }

    // The bytes of a grant's cells each way.
    #[tactic(auto, unfolding(rules::specs::Pool::cells))]
    pub fn space(grant: u16) -> usize
        ensures value { result ≡ 32 * cells grant }
        ensures upper_bound { result ≤ 65536 }
    {
        Pool::CELL_SIZE * Pool::cells(grant)
    }

    // The grant for a request, with so many cells unpromised.
    #[tactic(auto, using(rules::proofs::Laws::checks), unfolding(rules::specs::Pool::cells, rules::specs::Pool::grant_for))]
    pub fn grant(request: u16, free: usize) -> u16
        ensures { result ≡ grant_for request free }
    {
        let wanted = request.min(Pool::GRANT_CAP);
        if 2 * Pool::cells(wanted) <= free {
            return wanted;
        }
        (Pool::CELL_SIZE * (free / 2)) as u16
    }
}
