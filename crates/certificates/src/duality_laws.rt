// Each law is proved by a function with an empty body.
ghost use Rattle.std.specs.Prelude.{◌≡◌, ◌+◌, ◌<◌, ◌⊎◌, ℕ, suc, ℤ, ◌+ℤ◌, List, [], ◌∷◌, None, Some, pos, negsuc, true};
ghost use Rattle.std.specs.Option.{option_or};
ghost use Rattle.exact_numbers.specs.Fits.{fits};
ghost use Rattle.certificates.specs.Checked.{is_at_most};
ghost use Rattle.exact_numbers.specs.Rational.{ℚ, whole, zero_ℚ, neg_ℚ, ◌≤ℚ◌, ◌<ℚ◌};
ghost use Rattle.linear_program.specs.Linear.{Form, Interval, Linear, IsFeasible, IsRelaxed, form_value, objective_value, row_at, row_count, value_at, variable_count};
ghost use Rattle.certificates.specs.Points.{Box, IsRelaxedIn, IsAsGood, IsBetter};
ghost use Rattle.certificates.specs.Parts.{Part, Cut, bound as bound_cut, lemma, IsCutWhole, IsFeasibleIn, NumberForm, added_row, capped, first_part, part_of, raised, second_part, sum_of, with_added_row};
ghost use Rattle.certificates.specs.Branch.{BranchTree, split, duals, weights, bound_side, leaves, duals_check, weights_check, AreAllWeights, AreSplitsWhole, proof_fault, branch_fault};
ghost use Rattle.certificates.specs.Ray.{IsRay, ray_fault, ray_no_better, ray_row_broken};
ghost use Rattle.certificates.specs.Says.{IsBoundBroken, IsNotWhole, IsRowBroken, VerdictSays};
ghost use Rattle.certificates.specs.Solutions.{IsInfeasible, IsUnbounded};
ghost use Rattle.certificates.specs.Certificate.{Certificate, IsCertificate, OutcomeSays, at_leaf, at_point, at_ray, fails, holds, infeasible, large, not_whole, outcome};
ghost use Rattle.certificates.specs.Verdict.{verdict, yes, refused, row_broken, bound_broken, row_side_missing, bound_side_missing, dual_bound, bound, without_objective};
ghost use Rattle.certificates.specs.OneRowExamples.{example, whole_example, example_tree, number};
ghost use Rattle.certificates.specs.CertificateExamples.{along, at_most_seven, best_third, best_whole, charge_tree, gap_told, half, less_one, near_third, overcharge, overcharged, parity, parity_tree, third, value_told};

/// Weak duality: the bound of the duals is as good as the objective at every relaxed point within
/// the bounds that it was asked for.
#[tactic(auto, using(crate::proofs::Weak::weak))]
pub fn weak_duality()
    ensures { (f : Linear) (box : Box) (ys : List ℚ) (b : ℚ) → dual_bound f box ys ≡ bound b
        → (xs : List ℚ) → IsRelaxedIn f box xs → IsAsGood f.maximise b (objective_value f xs) }
{}

/// A point with the verdict yes is relaxed feasible and has that value, and no relaxed feasible
/// point is better.
pub fn certificates()
    ensures { (f : Linear) (xs ys : List ℚ) (v : ℚ) → verdict f xs ys ≡ yes v
        → IsRelaxed f xs × (objective_value f xs ≡ v)
        × ((zs : List ℚ) → IsRelaxed f zs → ¬ IsBetter f.maximise (objective_value f zs) v) }
{}

/// What each verdict on a point and duals says: with a yes or a gap the point is relaxed feasible,
/// has the value, and no relaxed feasible point is better than the bound; a broken row or bound
/// does not hold, and before it, or before one that is too wide, all is met; a later fault leaves
/// the point relaxed feasible.
#[tactic(auto, using(crate::proofs::Says::says))]
pub fn verdicts()
    ensures { (f : Linear) (xs ys : List ℚ) → VerdictSays f xs (verdict f xs ys) }
{}

/// A point at which a row or a bound does not hold is not relaxed feasible, and one at which a
/// whole variable is not whole is not feasible.
pub fn broken_points()
    ensures rows { (f : Linear) (xs : List ℚ) (i : ℕ) → IsRowBroken f xs i → ¬ IsRelaxed f xs }
    ensures bounds { (f : Linear) (xs : List ℚ) (j : ℕ) → IsBoundBroken f xs j
        → ¬ IsRelaxed f xs }
    ensures whole { (f : Linear) (xs : List ℚ) (j : ℕ) → IsNotWhole f xs j → ¬ IsFeasible f xs }
{}

/// The row of a plane or a lemma stands after the others: below d of them it is row number d after
/// the program's.
pub fn planes()
    ensures count { (f : Linear) (form : Form) (side : Interval)
        → row_count (with_added_row f form side) ≡ suc (row_count f) }
    ensures own { (f : Linear) (form : Form) (side : Interval)
        → row_at (with_added_row f form side) (row_count f) ≡ added_row form side }
    ensures before { (f : Linear) (form : Form) (side : Interval) (i : ℕ) → i < row_count f
        → row_at (with_added_row f form side) i ≡ row_at f i }
{}

/// A cut loses no feasible point of its part; bounds and planes are on whole variables.
pub fn cuts()
    ensures { (p : Part) (cut : Cut) (xs : List ℚ) → IsCutWhole p.program cut → IsFeasibleIn p xs
        → IsFeasibleIn (first_part cut p) xs ⊎ IsFeasibleIn (second_part cut p) xs }
{}

/// The part that has to show a lemma has all feasible points of its part, and the one that goes on
/// has those at which the lemma is true.
#[tactic(auto, using(crate::proofs::Parts::in_proof, crate::proofs::Parts::with_lemma))]
pub fn lemmas()
    ensures shown { (p : Part) (form : NumberForm) (t : ℚ) (xs : List ℚ) → IsFeasibleIn p xs
        → IsFeasibleIn (first_part (lemma form t) p) xs }
    ensures goes_on { (p : Part) (form : NumberForm) (t : ℚ) (xs : List ℚ) → IsFeasibleIn p xs
        → form_value (sum_of form) (variable_count p.program) xs ≤ℚ t
        → IsFeasibleIn (second_part (lemma form t) p) xs }
{}

/// Where every leaf of a proof by branches closes, and its splits are on whole variables, no
/// feasible point is better than the stated value.
#[tactic(auto, using(crate::proofs::Branches::branches))]
pub fn branch_proofs()
    ensures { (f : Linear) (v : ℚ) (tree : BranchTree) → AreSplitsWhole f tree
        → proof_fault f v tree ≡ None → (xs : List ℚ) → IsFeasible f xs
        → ¬ IsBetter f.maximise (objective_value f xs) v }
{}

/// Where every leaf closes, and all outside the proofs of lemmas have weights, there is no feasible
/// point.
pub fn infeasible_trees()
    ensures { (f : Linear) (v : ℚ) (tree : BranchTree) → AreSplitsWhole f tree → AreAllWeights tree
        → proof_fault f v tree ≡ None → IsInfeasible f }
{}

/// Where one leaf with weights closes, there is no relaxed point.
pub fn infeasibility_proofs()
    ensures { (f : Linear) (v : ℚ) (ys : List ℚ) → proof_fault f v (weights ys) ≡ None
        → (xs : List ℚ) → ¬ IsRelaxed f xs }
{}

/// In a tree of splits of variables each part differs in its bounds alone.
pub fn bound_trees()
    ensures splits { (v : ℚ) (f : Linear) (box : Box) (k j : ℕ) (t : ℤ) (below above : BranchTree)
        → branch_fault (part_of f box v) k (split (bound_cut j t) below above)
        ≡ option_or
        (branch_fault (part_of f (capped box j (whole t)) v) k below)
        (branch_fault (part_of f (raised box j (whole (t +ℤ pos 1))) v)
        (k + leaves below) above) }
    ensures duals { (v : ℚ) (f : Linear) (box : Box) (k : ℕ) (ys : List ℚ)
        → branch_fault (part_of f box v) k (duals ys)
        ≡ duals_check f.maximise v k (dual_bound f box ys) }
    ensures weights { (v : ℚ) (f : Linear) (box : Box) (k : ℕ) (ys : List ℚ)
        → branch_fault (part_of f box v) k (weights ys)
        ≡ weights_check k (dual_bound (without_objective f) box ys) }
{}

/// From a feasible point a ray leads to better values without end.
pub fn rays()
    ensures ray { (f : Linear) (ds : List ℚ) → ray_fault f (value_at ds) ≡ None → IsRay f ds }
    ensures endless { (f : Linear) (xs ds : List ℚ) → IsFeasible f xs → IsRay f ds
        → IsUnbounded f }
{}

/// What the verdict on a certificate says. Where it holds, its claim is true: the point is optimal,
/// near or a solution, v is a bound, there is no feasible point, or no end. Where a row or a bound
/// at the point is broken or too wide, all before it is met; where it fails later, the point is
/// feasible.
#[tactic(auto, using(crate::proofs::Shown::says))]
pub fn outcomes()
    ensures { (f : Linear) (c : Certificate) → IsCertificate f c
        → OutcomeSays f c (outcome f c) }
{}

/// A bound of 2 ^ 127 or more in size decides by its sign at each number that fits.
#[tactic(auto, using(crate::proofs::Large::large_above, crate::proofs::Large::large_below))]
pub fn large_bounds()
    ensures above { (x s : ℚ) → fits x ≡ true → is_at_most large s ≡ true → x <ℚ s }
    ensures below { (x s : ℚ) → fits x ≡ true → is_at_most s (neg_ℚ large) ≡ true → s <ℚ x }
{}

/// The worked examples have the verdicts that they should.
pub fn examples_have_their_verdicts()
    ensures row_broken { verdict example (number 3 ∷ number 0 ∷ []) (number 3 ∷ [])
        ≡ refused (row_broken 0) }
    ensures bound_broken { verdict example (number 4 ∷ number 0 ∷ []) (number 3 ∷ [])
        ≡ refused (bound_broken 0) }
    ensures row_side { verdict example (number 3 ∷ number 1 ∷ []) (whole (negsuc 0) ∷ [])
        ≡ refused (row_side_missing 0) }
    ensures bound_side { verdict example (number 3 ∷ number 1 ∷ []) (number 4 ∷ [])
        ≡ refused (bound_side_missing 1) }
    ensures proved { proof_fault whole_example (number 2) example_tree ≡ None }
{}

/// So have the worked certificates.
pub fn examples_have_their_outcomes()
    ensures best { value_told (best_third third third) ≡ Some (pos 1, 3) }
    ensures not_best { gap_told (best_third half third) ≡ Some (0, pos 1, 3) }
    ensures no_side { best_third third half ≡ fails (at_leaf (bound_side 0 0)) }
    ensures broken { best_third zero_ℚ third ≡ fails (at_point (row_broken 0)) }
    ensures best_whole { value_told (best_whole (number 1)) ≡ Some (pos 1, 1) }
    ensures no_whole { best_whole third ≡ fails (not_whole 0) }
    ensures no_point { outcome parity (infeasible parity_tree) ≡ holds None }
    ensures no_end { along (number 1 ∷ number 1 ∷ []) ≡ holds None }
    ensures no_ray { along (number 1 ∷ []) ≡ fails (at_ray (ray_row_broken 0)) }
    ensures no_better { along [] ≡ fails (at_ray ray_no_better) }
    ensures near { value_told (near_third half third) ≡ Some (pos 1, 2) }
    ensures not_near { gap_told (near_third half half) ≡ Some (0, pos 1, 3) }
    ensures by_lemma { value_told (at_most_seven (charge_tree zero_ℚ)) ≡ Some (pos 7, 1) }
    ensures false_lemma { gap_told (at_most_seven (charge_tree less_one)) ≡ Some (0, pos 0, 1) }
    ensures weak_lemma { gap_told (at_most_seven (charge_tree (number 1)))
        ≡ Some (2, pos 8, 1) }
    ensures no_lemma { gap_told (at_most_seven (duals (number 1 ∷ []))) ≡ Some (0, pos 10, 1) }
    ensures none_by_lemma { IsCertificate overcharged overcharge
        × (outcome overcharged overcharge ≡ holds None) }
{}
