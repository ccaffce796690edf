// The numbers of an instance, drawn one after the other.
ghost use Rattle.std.specs.Prelude.{◌≡◌, ℕ, ◌+◌, ◌*◌, ◌<◌, ◌≤◌};
ghost use Rattle.bridge_tool.specs.Draws.{drawn, next_state, drawn_row, state_after};

/// The numbers of one row.
#[derive(Clone, Copy)]
pub(crate) struct Row {
    // of its variable in its defined variable
    pub(crate) defining: u32,
    // of its variable in the row
    pub(crate) linear: u32,
    // the row's side
    pub(crate) most: u32,
    // the upper side of its variable
    pub(crate) bound: u32,
    // of its variable in the objective
    pub(crate) slope: u32,
}

/// The state of the numbers that are drawn.
#[derive(Drop)]
pub(crate) struct Draws {
    pub(crate) state: u32,
}

impl Draws {
    /// Draws a number below m.
    fn draw(&mut self, m: u32) -> u32
        requires { 0 < m }
        ensures state { self.new.state ≡ next_state self.old.state }
        ensures value { result ≡ drawn self.new.state m }
        ensures below { result < m }
    {
        let next = (self.state as u64 * 1664525 + 1013904223) % 0x1_0000_0000;
        self.state = next as u32;
        self.state / 65536 % m
    }

    /// Draws the numbers of row k.
    pub(crate) fn row(&mut self) -> Row
        ensures state { (seed k : ℕ) → self.old.state ≡ state_after seed (5 * k)
            → self.new.state ≡ state_after seed (5 * (k + 1)) }
        ensures row { (seed k : ℕ) → self.old.state ≡ state_after seed (5 * k)
            → result ≡ drawn_row seed k }
    {
        let defining = 1 + self.draw(9);
        let linear = 1 + self.draw(9);
        let most = 10 + self.draw(90);
        let bound = 1 + self.draw(9);
        let slope = 1 + self.draw(99);
        Row {
            defining,
            linear,
            most,
            bound,
            slope,
        }
    }
}
