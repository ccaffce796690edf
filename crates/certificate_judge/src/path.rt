// The way down to a leaf: the bounds of the splits on it, the rows of its planes and of the lemmas
// that it goes on with, and the lemmas in whose proofs it is.
ghost use Rattle.std.specs.Prelude.{◌≡◌, ◌<◌, ◌+◌, ◌∷◌, ℕ, List, [], length, IfOk, IfSome, MatchOption, None, Some};
ghost use Rattle.exact_numbers.specs.Rational.{ℚ};
ghost use Rattle.linear_program.specs.Linear.{variable_count};
ghost use Rattle.certificates.specs.Parts.{NumberForm, Part, WholeForm, bound, form_of as plane_form, lemma, plane, whole_part};
ghost use Rattle.certificates.specs.Certificates.{IsCutNumber};
ghost use Rattle.exact_checks.specs.Lists.{form_of};
ghost use Rattle.exact_checks.specs.Programs.{program_value};
ghost use Rattle.exact_checks.specs.Terms.{AreTerms};
ghost use Rattle.certificate_judge.specs.InsidePaths.{HasLeft, IsAt, IsLeftWithin, IsLemma, IsLemmaWithin, IsPath, Turn, last_of, next_turns, to_first, to_second};

use crate::plane::{lemma_row, side_over, side_under};
use crate::sides::{cap, next, raise, whole_dec};
use exact_checks::{Body, Program, Row};
use exact_numbers::{Dec, Frac};
use linear_program::Coefficients;
use std::alloc::{AllocError, Global};

// A step down: to a part of a split, with the side that it replaced; under a plane, which is then
// the last row; into the proof of a lemma, which is then the last one; or over a plane or on with a
// lemma, which is then the last row.
#[derive(Clone, Copy)]
pub(crate) enum Step {
    AtMost(u32, i128, Option<Dec>),
    AtLeast(u32, Option<Dec>),
    Under(i128),
    Showing,
    Over,
}

// A sum of terms, and the number that it is to be shown to be at most.
#[derive(Drop)]
pub(crate) struct Lemma {
    pub(crate) terms: Coefficients,
    pub(crate) most: Frac,
}

// What a step up left: the first part of a split, a plane or a lemma, or a second part.
#[derive(Drop)]
pub(crate) enum Left {
    Split(u32, i128),
    Plane(Body, i128),
    Shown(Lemma),
    Last,
}

#[derive(Drop)]
pub(crate) struct Path {
    pub(crate) lo: Vec<Option<Dec>>,
    pub(crate) hi: Vec<Option<Dec>>,
    pub(crate) added: Vec<Row>,
    pub(crate) lemmas: Vec<Lemma>,
    pub(crate) steps: Vec<Step>,
}

impl Path {
    // The bounds of a program, with no step, and room for so many steps, added rows and lemmas.
    #[tactic(auto, using(crate::proofs::Beginnings::beginnings))]
    pub(crate) fn new(
        alloc: Global,
        program: &Program,
        deepest: usize,
        most_added: usize,
        most_lemmas: usize,
    ) -> Result<Path, AllocError>
        ensures path { IfOk result (λ p. IsPath (variable_count (program_value program.now)) p) }
        ensures at { IfOk result (λ p. (v : ℚ)
            → IsAt (whole_part (program_value program.now) v) [] p) }
    {
        let count = program.n_var() as usize;
        let mut lo = Vec::with_capacity(alloc, count)?;
        let mut hi = Vec::with_capacity(alloc, count)?;
        for var in 0..program.n_var() {
            let sides = program.bound(var);
            lo.push(sides.lo)?;
            hi.push(sides.hi)?;
        }
        let added = Vec::with_capacity(alloc, most_added)?;
        let lemmas = Vec::with_capacity(alloc, most_lemmas)?;
        let steps = Vec::with_capacity(alloc, deepest)?;
        Ok(Path {
            lo,
            hi,
            added,
            lemmas,
            steps,
        })
    }

    // The lemma in whose proof this is: the last one, where one lies in the proof of another.
    #[tactic(auto, using(crate::proofs::Lasts::last_found))]
    pub(crate) fn lemma(&self) -> Option<&Lemma>
        ensures { MatchOption result (last_of self.now.lemmas.items ≡ None)
            (λ l. last_of self.now.lemmas.items ≡ Some l.now) }
    {
        self.lemmas.last()
    }

    // Goes down to "variable j at most t".
    pub(crate) fn enter_low(&mut self, j: u32, t: i128) -> Result<(), AllocError>
        requires path { (n : ℕ) × (j < n) × IsPath n self.old }
        requires number { IsCutNumber t }
        ensures path { IfOk result (λ u. (n : ℕ) → j < n → IsPath n self.old → IsPath n self.new) }
        ensures at { IfOk result (λ u. (base : Part) (turns : List Turn)
            → IsAt base turns self.old → IsAt base (to_first (bound j t) ∷ turns) self.new) }
    {
        let before = cap(&mut self.hi, j as usize, whole_dec(t));
        self.steps.push(Step::AtMost(j, t, before))?;
        Ok(())
    }

    // Goes down to "variable j at least t + 1".
    #[tactic(auto, using(crate::proofs::WholeDecimals::next_is, crate::proofs::PathLemmas::downs))]
    fn enter_high(&mut self, j: u32, t: i128) -> Result<(), AllocError>
        requires path { (n : ℕ) × (j < n) × IsPath n self.old }
        requires number { IsCutNumber t }
        ensures path { IfOk result (λ u. (n : ℕ) → j < n → IsPath n self.old → IsPath n self.new) }
        ensures at { IfOk result (λ u. (base : Part) (turns : List Turn)
            → IsAt base turns self.old → IsAt base (to_second (bound j t) ∷ turns) self.new) }
    {
        let least = next(t);
        let before = raise(&mut self.lo, j as usize, whole_dec(least));
        self.steps.push(Step::AtLeast(j, before))?;
        Ok(())
    }

    // Goes down under a plane.
    pub(crate) fn enter_under(&mut self, body: Body, t: i128) -> Result<(), AllocError>
        requires number { IsCutNumber t }
        ensures path { IfOk result (λ u. (n : ℕ) → AreTerms 0 n body.terms
            → IsPath n self.old → IsPath n self.new) }
        ensures at { IfOk result (λ u. (base : Part) (turns : List Turn) (form : WholeForm)
            → form_of body ≡ plane_form form → IsAt base turns self.old
            → IsAt base (to_first (plane form t) ∷ turns) self.new) }
    {
        let side = side_under(t);
        self.added.push(Row { body, side })?;
        self.steps.push(Step::Under(t))?;
        Ok(())
    }

    // Goes down over a plane.
    #[tactic(auto, using(crate::proofs::WholeDecimals::next_is))]
    fn enter_over(&mut self, body: Body, t: i128) -> Result<(), AllocError>
        requires number { IsCutNumber t }
        ensures path { IfOk result (λ u. (n : ℕ) → AreTerms 0 n body.terms
            → IsPath n self.old → IsPath n self.new) }
        ensures at { IfOk result (λ u. (base : Part) (turns : List Turn) (form : WholeForm)
            → form_of body ≡ plane_form form → IsAt base turns self.old
            → IsAt base (to_second (plane form t) ∷ turns) self.new) }
    {
        let side = side_over(next(t));
        self.added.push(Row { body, side })?;
        self.steps.push(Step::Over)?;
        Ok(())
    }

    // Goes down to the proof of a lemma.
    #[tactic(auto, using(crate::proofs::PathLemmas::path_lemma))]
    pub(crate) fn enter_proof(&mut self, shown: Lemma) -> Result<(), AllocError>
        ensures path { IfOk result (λ u. (n : ℕ) → IsLemmaWithin n shown → IsPath n self.old
            → IsPath n self.new) }
        ensures at { IfOk result (λ u. (base : Part) (turns : List Turn) (form : NumberForm) (t : ℚ)
            → IsLemma form t shown → IsAt base turns self.old
            → IsAt base (to_first (lemma form t) ∷ turns) self.new) }
    {
        self.lemmas.push(shown)?;
        self.steps.push(Step::Showing)?;
        Ok(())
    }

    // Goes on with a lemma as one row more.
    fn enter_rest(&mut self, shown: Lemma) -> Result<(), AllocError>
        ensures path { IfOk result (λ u. (n : ℕ) → IsLemmaWithin n shown → IsPath n self.old
            → IsPath n self.new) }
        ensures at { IfOk result (λ u. (base : Part) (turns : List Turn) (form : NumberForm) (t : ℚ)
            → IsLemma form t shown → IsAt base turns self.old
            → IsAt base (to_second (lemma form t) ∷ turns) self.new) }
    {
        self.added.push(lemma_row(shown))?;
        self.steps.push(Step::Over)?;
        Ok(())
    }

    // Takes the last step back.
    #[tactic(auto, using(crate::proofs::PathLemmas::lemma_within))]
    fn leave(&mut self) -> Option<Left>
        requires path { (n : ℕ) × IsPath n self.old }
        ensures path { (n : ℕ) → IsPath n self.old → IsPath n self.new }
        ensures at { MatchOption result
            ((base : Part) (turns : List Turn) → IsAt base turns self.old
            → (turns ≡ []) × IsAt base [] self.new)
            (λ left. (base : Part) (turns : List Turn) → IsAt base turns self.old
            → HasLeft left base turns self.new) }
        ensures left { (n : ℕ) → IsPath n self.old → IfSome result (λ left. IsLeftWithin n left) }
        ensures shorter { MatchOption result (length self.old.steps.items ≡ 0)
            (λ left. length self.old.steps.items ≡ length self.new.steps.items + 1) }
    {
        match self.steps.pop()? {
            Step::AtMost(j, t, before) => {
                self.hi[j as usize] = before;
                Some(Left::Split(j, t))
            }
            Step::AtLeast(j, before) => {
                self.lo[j as usize] = before;
                Some(Left::Last)
            }
            Step::Under(t) => match self.added.pop() {
                Some(row) => Some(Left::Plane(row.body, t)),
                None => Some(Left::Last),
            },
            Step::Showing => match self.lemmas.pop() {
                Some(shown) => Some(Left::Shown(shown)),
                None => Some(Left::Last),
            },
            Step::Over => match self.added.pop() {
                Some(_row) => Some(Left::Last),
                None => Some(Left::Last),
            },
        }
    }

    // Goes up to the last first part, and on to the second one.
    pub(crate) fn climb(&mut self) -> Result<(), AllocError>
        requires path { (n : ℕ) × IsPath n self.old }
        ensures path { IfOk result (λ u. (n : ℕ) → IsPath n self.old → IsPath n self.new) }
        ensures at { IfOk result (λ u. (base : Part) (turns : List Turn)
            → IsAt base turns self.old → IsAt base (next_turns turns) self.new) }
    {
        while let Some(left) = self.leave() {
            match left {
                Left::Split(j, t) => return self.enter_high(j, t),
                Left::Plane(body, t) => return self.enter_over(body, t),
                Left::Shown(shown) => return self.enter_rest(shown),
                Left::Last => {}
            }
        }
        Ok(())
    }
}
