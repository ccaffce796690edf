// What the end of a text asks of its parts.
ghost use Rattle.std.specs.Prelude.{◌≡◌, is_some, get_or};
ghost use Rattle.std.specs.List.{list_all};
ghost use Rattle.nl_segments.specs.InsideEnding.{are_sums};
ghost use Rattle.nl_lines.specs.Tests.{lacks_part};

use nl_model::NlBuilder;

// How often variable j is used.
fn uses_of(uses: &[u32], j: usize) -> u32
    ensures { result ≡ get_or uses.now j 0 }
{
    match uses.get(j) {
        Some(count) => *count,
        None => 0,
    }
}

/// Whether each number is the one before it and the uses of its variable.
pub(crate) fn are_sums(columns: &[u32], uses: &[u32]) -> bool
    ensures { result ≡ are_sums uses.now 0 0 columns.now }
{
    let mut before = 0;
    'columns: for (j, column) in columns.iter().enumerate() {
        if *column as u64 != before as u64 + uses_of(uses, j) as u64 {
            return false;
        }
        before = *column;
    }
    true
}

// Whether each objective was given.
#[tactic(auto, using(crate::proofs::EndLemmas::given_next, crate::proofs::EndLemmas::not_given))]
fn has_objectives(builder: &NlBuilder) -> bool
    ensures { result ≡ list_all is_some builder.now.objectives }
{
    let count = builder.header().counts().n_obj;
    'objectives: for k in 0..count {
        if !builder.has_objective(k) {
            return false;
        }
    }
    true
}

/// Whether an objective, or an interval of a constraint or a variable, was not given.
pub(crate) fn is_short(builder: &NlBuilder) -> bool
    ensures { result ≡ lacks_part builder.now }
{
    let counts = builder.header().counts();
    if !has_objectives(builder) || builder.sides() < counts.n_con {
        return true;
    }
    builder.bounds() < counts.n_var
}
