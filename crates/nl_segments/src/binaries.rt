// Which variables are binary.
ghost use Rattle.std.specs.Prelude.{◌≡◌, ◌≤◌, ◌-◌, ◌&&◌, not, nat_le, nat_lt, false, ℕ};
ghost use Rattle.nl_model.specs.Kinds.{variable_kind};
ghost use Rattle.nl_lines.specs.Tests.{is_binary};

use nl_model::Counts;

/// Binary variables follow one another: from the first up to the end.
#[derive(Clone, Copy)]
pub struct Binaries {
    first: u64,
    end: u64,
}

impl Binaries {
    /// Those of a file with these counts.
    pub(crate) fn of(counts: &Counts) -> Binaries
        ensures { (j : ℕ) → is_binary (variable_kind counts.now j)
            ≡ (nat_le result.first j && nat_lt j result.end) }
    {
        let shared = counts.nlvb.saturating_sub(counts.nlvbi);
        let rows = counts
            .nlvc
            .saturating_sub(counts.nlvb)
            .saturating_sub(counts.nlvci);
        let objectives = counts
            .nlvo
            .saturating_sub(counts.nlvc)
            .saturating_sub(counts.nlvoi);
        let nonlinear = counts.nlvc.max(counts.nlvo);
        let linear = counts
            .n_var
            .saturating_sub(nonlinear)
            .saturating_sub(counts.nbv);
        let first = shared as u64
            + counts.nlvbi as u64
            + rows as u64
            + counts.nlvci as u64
            + objectives as u64
            + counts.nlvoi as u64
            + linear.saturating_sub(counts.niv) as u64;
        Binaries {
            first,
            end: first + counts.nbv as u64,
        }
    }

    /// Whether the next interval is that of one of them, where so many are left. Those of
    /// constraints are of none.
    #[inline]
    pub(crate) fn has_next(self, n_var: u32, of_constraint: bool, left: u32) -> bool
        requires { of_constraint ≡ false → left ≤ n_var }
        ensures { result ≡ (not of_constraint
            && (nat_le self.first (n_var - left) && nat_lt (n_var - left) self.end)) }
    {
        if of_constraint {
            return false;
        }
        let var = (n_var - left) as u64;
        self.first <= var && var < self.end
    }
}
