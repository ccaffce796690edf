// The walk over the nodes of a tree.
ghost use Rattle.std.specs.Prelude.{◌≡◌, ◌+◌, ◌≤◌, ◌^◌, ℕ, List, [], length, IfOk};
ghost use Rattle.std.specs.Option.{option_map};
ghost use Rattle.exact_numbers.specs.Rational.{ℚ};
ghost use Rattle.linear_program.specs.Linear.{row_count};
ghost use Rattle.certificates.specs.Branch.{proof_fault};
ghost use Rattle.certificates.specs.Parts.{whole_part};
ghost use Rattle.exact_numbers.specs.Values.{frac_value};
ghost use Rattle.certificates.specs.Certificates.{CertificateTree, tree_over, announced_pairs};
ghost use Rattle.exact_checks.specs.Answers.{bound_answer_of};
ghost use Rattle.exact_checks.specs.Leaves.{AreIndices};
ghost use Rattle.exact_checks.specs.Programs.{program_value};
ghost use Rattle.certificate_judge.specs.Outcomes.{fault_found, leaf_fault_of};
ghost use Rattle.certificate_judge.specs.InsidePaths.{IsAt, Turn, part_under};
ghost use Rattle.certificate_judge.specs.Walks.{IsLeafNode, IsWorkspace, IsWritten, bound_in, leaf_check, leaf_node};

use crate::leaf::leaf_fault;
use crate::outcome::LeafFault;
use crate::path::Path;
use crate::plane::{body_of, lemma_of};
use certificates::CertificateNode;
use exact_checks::{BoundVerdict, Costs, Goal, Program, Row, leaf_bound, sum_bound};
use exact_numbers::{Dec, Frac};
use linear_program::Number;
use std::alloc::{AllocError, Global};

// What the walk needs: the way down, and the costs of a leaf.
#[derive(Drop)]
pub(crate) struct Workspace {
    path: Path,
    costs: Costs,
}

// How many rows and lemmas a way down in a tree may have: room alone, so no clause speaks of the
// numbers.
fn most_added(nodes: &[CertificateNode]) -> (usize, usize) {
    let mut rows: usize = 0;
    let mut lemmas: usize = 0;
    for node in nodes {
        match *node {
            CertificateNode::Plane(_, _) => rows = rows.saturating_add(1),
            CertificateNode::Lemma(_, _) => {
                rows = rows.saturating_add(1);
                lemmas = lemmas.saturating_add(1);
            }
            CertificateNode::Split(_, _)
            | CertificateNode::Duals(_)
            | CertificateNode::Weights(_) => {}
        }
    }
    (rows, lemmas)
}

impl Workspace {
    // Workspace for a walk over a program and such a tree: half of its nodes are cuts, and no way
    // down has more.
    #[tactic(auto, using(exact_checks::proofs::Rows::variables_counted))]
    fn new(
        alloc: Global,
        program: &Program,
        nodes: &[CertificateNode],
    ) -> Result<Workspace, AllocError>
        ensures room { IfOk result (λ r. IsWorkspace program.now r) }
        ensures at { IfOk result (λ r. (v : ℚ)
            → IsAt (whole_part (program_value program.now) v) [] r.path) }
    {
        let (rows, lemmas) = most_added(nodes);
        let path = Path::new(alloc, program, nodes.len() / 2, rows, lemmas)?;
        let costs = Costs::new(alloc, program.n_var())?;
        Ok(Workspace { path, costs })
    }

    // The bound of the leaf with these pairs, where the walk is: on the objective, or on the sum of
    // the lemma in whose proof it is; or on 0.
    fn bound(
        &mut self,
        program: &Program,
        goal: Goal,
        pairs: &[(u32, Number)],
    ) -> Result<BoundVerdict, AllocError>
        requires room { IsWorkspace program.now self.old }
        requires pairs { AreIndices 0 (length program.now.rows.items
            + length self.old.path.added.items) pairs.now }
        ensures room { IfOk result (λ o. IsWorkspace program.now self.new) }
        ensures path { IfOk result (λ o. self.new.path ≡ self.old.path) }
        ensures exact { IfOk result (λ o. (v : ℚ) (turns : List Turn)
            → IsAt (whole_part (program_value program.now) v) turns self.old.path
            → bound_answer_of o
            ≡ bound_in (part_under (whole_part (program_value program.now) v) turns)
            goal pairs.now) }
    {
        let path = &self.path;
        let costs = &mut self.costs;
        let added: &[Row] = &path.added;
        let lo: &[Option<Dec>] = &path.lo;
        let hi: &[Option<Dec>] = &path.hi;
        match goal {
            Goal::Objective => match path.lemma() {
                Some(shown) => sum_bound(costs, program, added, &shown.terms, lo, hi, pairs),
                None => leaf_bound(costs, program, added, Goal::Objective, lo, hi, pairs),
            },
            Goal::Zero => leaf_bound(costs, program, added, Goal::Zero, lo, hi, pairs),
        }
    }

    // Why the leaf with these pairs, where the walk is, does not close.
    #[tactic(auto, using(crate::proofs::LeafBounds::senses))]
    fn judge(
        &mut self,
        program: &Program,
        goal: Goal,
        value: Frac,
        pairs: &[(u32, Number)],
    ) -> Result<Option<LeafFault>, AllocError>
        requires room { IsWorkspace program.now self.old }
        requires pairs { AreIndices 0 (length program.now.rows.items
            + length self.old.path.added.items) pairs.now }
        ensures room { IfOk result (λ o. IsWorkspace program.now self.new) }
        ensures path { IfOk result (λ o. self.new.path ≡ self.old.path) }
        ensures exact { IfOk result (λ o. (turns : List Turn)
            → IsAt (whole_part (program_value program.now) (frac_value value)) turns self.old.path
            → (k : ℕ) → option_map (leaf_fault_of k) o
            ≡ leaf_check goal
            (part_under (whole_part (program_value program.now) (frac_value value)) turns) k
            (bound_in (part_under (whole_part (program_value program.now) (frac_value value)) turns)
            goal pairs.now)) }
    {
        let bound = self.bound(program, goal, pairs)?;
        match self.path.lemma() {
            Some(shown) => Ok(leaf_fault(goal, true, shown.most, bound)),
            None => Ok(leaf_fault(goal, program.maximise(), value, bound)),
        }
    }
}

// How many pairs a node has.
fn announced_pairs(node: CertificateNode) -> usize
    ensures { result ≡ announced_pairs node }
{
    match node {
        CertificateNode::Split(_, _) => 0,
        CertificateNode::Plane(count, _) => count as usize,
        CertificateNode::Lemma(count, _) => count as usize,
        CertificateNode::Duals(count) => count as usize,
        CertificateNode::Weights(count) => count as usize,
    }
}

// What the numbers of a leaf are for.
fn goal_of(node: CertificateNode) -> Goal
    requires { IsLeafNode node }
    ensures { node ≡ leaf_node result (announced_pairs node) }
{
    match node {
        CertificateNode::Duals(_) => Goal::Objective,
        CertificateNode::Weights(_) => Goal::Zero,
        CertificateNode::Split(_, _)
        | CertificateNode::Plane(_, _)
        | CertificateNode::Lemma(_, _) => unreachable!(),
    }
}

// The first leaf, in order, that does not close, with its number.
#[tactic(auto, using(exact_checks::proofs::Rows::variables_counted, crate::proofs::Standing::stands))]
fn first_open_leaf(
    alloc: Global,
    program: &Program,
    nodes: &[CertificateNode],
    pairs: &[(u32, Number)],
    value: Frac,
    room: &mut Workspace,
) -> Result<Option<(u32, LeafFault)>, AllocError>
    requires tree { (tree : CertificateTree)
        × IsWritten (program_value program.now) tree nodes.now pairs.now }
    requires few { length nodes.now ≤ 2 ^ 22 }
    requires room { IsWorkspace program.now room.old }
    requires at { IsAt (whole_part (program_value program.now) (frac_value value)) [] room.old.path }
    ensures { IfOk result (λ o. (tree : CertificateTree)
        → IsWritten (program_value program.now) tree nodes.now pairs.now
        → fault_found o ≡ proof_fault (program_value program.now) (frac_value value)
        (tree_over (row_count (program_value program.now)) tree)) }
{
    let mut rest = pairs;
    let mut number = 0;
    for node in nodes {
        if let CertificateNode::Split(variable, most) = *node {
            room.path.enter_low(variable, most)?;
            continue;
        }
        let (own, later) = rest.split_at(announced_pairs(*node));
        rest = later;
        if let CertificateNode::Plane(_, most) = *node {
            room.path.enter_under(body_of(alloc, own)?, most)?;
            continue;
        }
        if let CertificateNode::Lemma(_, most) = *node {
            room.path.enter_proof(lemma_of(alloc, own, &most)?)?;
            continue;
        }
        if let Some(fault) = room.judge(program, goal_of(*node), value, own)? {
            return Ok(Some((number, fault)));
        }
        room.path.climb()?;
        number += 1;
    }
    Ok(None)
}

/// The first leaf of a tree that does not close for the value, in order, and why. The memory for
/// the bounds, the costs and the way down is taken first; the terms of a plane or a lemma are copied
/// as it is entered. A leaf costs the terms of the rows that have a number, and of its goal.
pub fn check_tree(
    alloc: Global,
    program: &Program,
    nodes: &[CertificateNode],
    pairs: &[(u32, Number)],
    value: Frac,
) -> Result<Option<(u32, LeafFault)>, AllocError>
    requires tree { (tree : CertificateTree)
        × IsWritten (program_value program.now) tree nodes.now pairs.now }
    requires few { length nodes.now ≤ 2 ^ 22 }
    ensures { IfOk result (λ o. (tree : CertificateTree)
        → IsWritten (program_value program.now) tree nodes.now pairs.now
        → fault_found o ≡ proof_fault (program_value program.now) (frac_value value)
        (tree_over (row_count (program_value program.now)) tree)) }
{
    let mut room = Workspace::new(alloc, program, nodes)?;
    first_open_leaf(alloc, program, nodes, pairs, value, &mut room)
}
