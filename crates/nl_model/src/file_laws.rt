// Each law is proved by a function with an empty body.
ghost use Rattle.std.specs.Prelude.{◌≡◌, ◌<◌, ◌↔◌, ℕ, List, [], None, Some, get_or, slice_get, take};
ghost use Rattle.exact_numbers.specs.Rational.{ℚ};
ghost use Rattle.linear_program.specs.Linear.{IsLinear, IsFeasible as IsFeasibleProgram, IsRelaxed as IsRelaxedProgram, objective_value as program_objective};
ghost use Rattle.linear_program.specs.Lines.{line_value, Point};
ghost use Rattle.nl_model.specs.Parts.{IsLinearTree, IsPart};
ghost use Rattle.nl_model.specs.Trees.{Definition, IsOneOf, Tree, indices_of, known_values, tree_value};
ghost use Rattle.nl_model.specs.File.{File};
ghost use Rattle.nl_model.specs.Rules.{IsFile};
ghost use Rattle.nl_model.specs.Expressions.{body_of, definitions_of, maximises, objective_of};
ghost use Rattle.nl_model.specs.FoldFaults.{defined_line, fold_fault};
ghost use Rattle.nl_model.specs.LinearFile.{HasLines, IsFormedFile, IsPlain, body_form, linear_of, number_value, objective_form};
ghost use Rattle.linear_program.specs.Decimals.{coefficient_of};
ghost use Rattle.nl_model.specs.Meaning.{IsFeasible, IsRelaxed, file_objective};

// Where each body and the objective have the values of their forms, the linear program means what
// the file means.
pub fn files_are_linear()
    ensures feasible { (f : File) (k : ℕ) → HasLines f k → (xs : List ℚ)
        → IsFeasible f xs ↔ IsFeasibleProgram (linear_of f k) xs }
    ensures relaxed { (f : File) (k : ℕ) → HasLines f k → (xs : List ℚ)
        → IsRelaxed f xs ↔ IsRelaxedProgram (linear_of f k) xs }
    ensures objective { (f : File) (k : ℕ) → HasLines f k → (xs : List ℚ)
        → file_objective f k xs ≡ Some (program_objective (linear_of f k) xs) }
    ensures sense { (f : File) (k : ℕ) → (linear_of f k).maximise ≡ maximises f k }
    ensures linear { (f : File) (k : ℕ) → IsFormedFile f k → IsLinear (linear_of f k) }
{}

// Where the trees are numbers, the constant of a form is its number, and a coefficient is the sum
// of the terms with its variable.
pub fn plain_files_are_linear()
    ensures lines { (f : File) (k : ℕ) → IsFormedFile f k → IsPlain f k → HasLines f k }
    ensures constants { (f : File) (k : ℕ) → IsPlain f k → (i : ℕ) → i < f.counts.n_con
        → (body_form f i).constant ≡ number_value (body_of f i).tree }
    ensures coefficients { (f : File) (k : ℕ) → IsPlain f k → (i : ℕ) → i < f.counts.n_con → (j : ℕ)
        → (body_form f i).coefficient j ≡ coefficient_of (get_or f.terms i []) j }
    ensures objective_constant { (f : File) (k : ℕ) → IsPlain f k
        → (objective_form f k).constant ≡ number_value (objective_of f k).tree }
    ensures objective_coefficients { (f : File) (k : ℕ) → IsPlain f k → (j : ℕ)
        → (objective_form f k).coefficient j ≡ coefficient_of (get_or f.slopes k []) j }
{}

// In a file without a fold fault the bodies, the objective and the defined variables have the
// values of lines at every assignment.
pub fn files_without_faults_are_linear()
    ensures defined { (f : File) (k : ℕ) → IsFormedFile f k → fold_fault f k ≡ None → (i : ℕ)
        → IsOneOf i (indices_of (definitions_of f)) → (at : Point)
        → known_values (definitions_of f) at i
        ≡ Some (line_value f.counts.n_var (defined_line f i) at) }
    ensures lines { (f : File) (k : ℕ) → IsFormedFile f k → fold_fault f k ≡ None → HasLines f k }
{}

// In a file without a fold fault each part of each tree that is folded has at every point its value
// at 0 and the sum of its coefficients times the variables. The tree of a definition may use the
// definitions before it.
pub fn parts_are_linear()
    ensures definitions { (f : File) (k : ℕ) → IsFormedFile f k → fold_fault f k ≡ None →
        (i : ℕ) (d : Definition) → slice_get (definitions_of f) i ≡ Some d →
        (u : Tree) → IsPart u d.expression.tree →
        IsLinearTree f.counts.n_var (take i (definitions_of f)) u }
    ensures bodies { (f : File) (k : ℕ) → IsFormedFile f k → fold_fault f k ≡ None →
        (i : ℕ) → i < f.counts.n_con → (u : Tree) → IsPart u (body_of f i).tree →
        IsLinearTree f.counts.n_var (definitions_of f) u }
    ensures objective { (f : File) (k : ℕ) → IsFormedFile f k → fold_fault f k ≡ None →
        (u : Tree) → IsPart u (objective_of f k).tree →
        IsLinearTree f.counts.n_var (definitions_of f) u }
{}

// In each file that a builder makes the definitions before a definition are enough for its tree and
// for each part of it: with all definitions of the file it has the same values. So in a file without
// a fold fault it is linear with all of them.
pub fn definitions_are_linear()
    ensures values { (f : File) → IsFile f → (i : ℕ) (d : Definition)
        → slice_get (definitions_of f) i ≡ Some d → (u : Tree) → IsPart u d.expression.tree
        → (at : Point)
        → tree_value (take i (definitions_of f)) u at ≡ tree_value (definitions_of f) u at }
    ensures linear { (f : File) (k : ℕ) → IsFile f → fold_fault f k ≡ None → (i : ℕ)
        (d : Definition) → slice_get (definitions_of f) i ≡ Some d → (u : Tree)
        → IsPart u d.expression.tree → IsLinearTree f.counts.n_var (definitions_of f) u }
{}

// Each file that a builder makes has ordered sides and indices in range, whichever objective is
// chosen.
pub fn files_are_formed()
    ensures { (f : File) → IsFile f → (k : ℕ) → IsFormedFile f k }
{}
