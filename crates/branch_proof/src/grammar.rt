// The grammar of proof texts, a line at a time.
ghost use Rattle.std.specs.Prelude.{◌≡◌, ◌<◌, ◌^◌, ◌+◌, ◌∷◌, count_by, List, ℕ, [], Some, is_some, IfOk, OnOk, true};
ghost use Rattle.text_base.specs.Judged.{DecidesOrStops, Takes};
ghost use Rattle.text_base.specs.Words.{texts};
ghost use Rattle.branch_proof.specs.Grammar.{SaysProof, proof_rules};
ghost use Rattle.branch_proof.specs.Rows.{claim_in, proof_node_in, proof_pair_in};
ghost use Rattle.certificate_text.specs.TextRows.{rows_in};
ghost use Rattle.certificates.specs.Setting.{Setting};
ghost use Rattle.branch_proof.specs.Standing.{IsSaid, has_pair, is_leaf, is_split, is_whole_proof, last_pairs, pairs_left, proof_standing, subtrees_left};
ghost use Rattle.certificates.specs.Proofs.{announced_pairs};
ghost use Rattle.branch_proof.specs.Steps.{moved, with_claim, with_line, with_node, with_pair, with_row};
ghost use Rattle.branch_proof.specs.Tests.{claim_tests, first_tests, is_split_continuous, is_split_out, proof_end_tests, proof_line_tests, proof_node_tests, proof_pair_tests, proof_row_tests};

use crate::fault::ProofReason;
use crate::rows::{judge_first, read_claim};
use crate::words::{is_node_row, node_in, pair_in};
use certificates::proof::{Claim, Proof, ProofNode};
use exact_numbers::Dec;
use linear_program::{Kind, Terms};
use std::alloc::{AllocError, Global};
use std::marker::Model;
use text_base::{Grammar, LineFault, Marks, Row, Stop};

/// A proof has at most so many nodes.
const MOST_NODES: usize = 1 << 16;

/// All leaves together have at most so many pairs.
const MOST_PAIRS: usize = 1 << 22;

/// What was read of a proof, and the number of rows and the kinds of the variables that it is judged
/// by.
#[derive(Drop)]
pub struct ProofGrammar {
    rows: u32,
    kinds: Vec<Kind>,
    begun: bool,
    claim: Option<Claim>,
    nodes: Vec<ProofNode>,
    pairs: Terms,
    // how many subtrees, and how many pairs of the last leaf, are awaited
    subtrees: u64,
    left: u32,
    // the rows of the last leaf's pairs
    marks: Marks,
}

impl Model for ProofGrammar {
    ghost use Rattle.branch_proof.specs.InsideReader.{AreCounted};
    ghost use Rattle.branch_proof.specs.Steps.{ReadSoFar};

    ghost Value = { ReadSoFar };

    ghost view = { λ g. record {
      setting = record { rows = g.rows; kinds = g.kinds.items };
      standing = record {
        begun = g.begun;
        claim = g.claim;
        nodes = g.nodes.items;
        pairs = g.pairs;
      };
    } };

    ghost invariant = { λ g. AreCounted g.nodes.items g.pairs g.subtrees g.left g.rows g.marks };
}

impl Grammar for ProofGrammar {
    type Reason = ProofReason;

    type Value = Proof;

    ghost Setting = { Setting };

    ghost setting = { λ g. g.setting };

    ghost rules = { λ s. proof_rules s };

    ghost took = { λ g lines. g.standing ≡ proof_standing (rows_in lines) };

    ghost says = { λ s lines proof. SaysProof lines proof };

    fn take(&mut self, line: &[u8], number: u32) -> Result<(), Stop<ProofReason>> {
        let _ = number;
        self.take_line(line)
    }

    fn line_fault(&self, fault: LineFault) -> ProofReason {
        match fault {
            LineFault::LineTooLong => ProofReason::LineTooLong,
            LineFault::InputTooLong => ProofReason::InputTooLong,
        }
    }

    fn finish(self) -> Result<Proof, Stop<ProofReason>> {
        self.end()
    }
}

// Whether a split is of no variable.
fn is_split_out(kinds: &[Kind], node: ProofNode) -> bool
    ensures { result ≡ is_split_out kinds.now (Some node) }
{
    match node {
        ProofNode::Split(variable, _) => kinds.len() <= variable as usize,
        _ => false,
    }
}

// Whether a split is of a continuous variable.
fn is_split_continuous(kinds: &[Kind], node: ProofNode) -> bool
    ensures { result ≡ is_split_continuous kinds.now (Some node) }
{
    let ProofNode::Split(variable, _) = node else {
        return false;
    };
    match kinds.get(variable as usize) {
        Some(Kind::Binary) | Some(Kind::Integer) => false,
        _ => true,
    }
}

// How many pairs a node announces.
fn announced_pairs(node: ProofNode) -> u32
    ensures { result ≡ announced_pairs node }
{
    match node {
        ProofNode::Split(_, _) => 0,
        ProofNode::Duals(count) => count,
        ProofNode::Weights(count) => count,
    }
}

// How many subtrees are awaited behind a node, where so many were before it.
fn subtrees_after(subtrees: u64, node: ProofNode) -> u64
    requires some { 0 < subtrees }
    requires few { subtrees < 2 ^ 63 }
    ensures { result + count_by is_leaf (node ∷ []) ≡ subtrees + count_by is_split (node ∷ []) }
{
    match node {
        ProofNode::Split(_, _) => subtrees + 1,
        ProofNode::Duals(_) => subtrees - 1,
        ProofNode::Weights(_) => subtrees - 1,
    }
}

impl ProofGrammar {
    /// No lines of a proof over so many rows and these variables.
    #[tactic(auto, unfolding(certificate_text::specs::TextRows::rows_in))]
    pub fn new(alloc: Global, rows: u32, kinds: Vec<Kind>) -> Result<ProofGrammar, AllocError>
        ensures setting { IfOk result (λ g. g.setting
            ≡ record { rows = rows; kinds = kinds.items }) }
        ensures standing { IfOk result (λ g. g.standing ≡ proof_standing (rows_in [])) }
    {
        let marks = Marks::new(alloc, rows as usize)?;
        Ok(ProofGrammar {
            rows,
            kinds,
            begun: false,
            claim: None,
            nodes: Vec::new(alloc),
            pairs: Terms::new(alloc),
            subtrees: 1,
            left: 0,
            marks,
        })
    }

    // Whether the first row has come.
    fn has_begun(&self) -> bool
        ensures { result ≡ self.now.standing.begun }
    {
        self.begun
    }

    // Whether the claim has come.
    fn has_claim(&self) -> bool
        ensures { result ≡ is_some self.now.standing.claim }
    {
        self.claim.is_some()
    }

    // How many subtrees are awaited.
    fn subtrees_left(&self) -> u64
        ensures { result ≡ subtrees_left self.now.standing }
    {
        self.subtrees
    }

    // How many pairs of the last leaf are awaited.
    fn pairs_left(&self) -> u32
        ensures { result ≡ pairs_left self.now.standing }
    {
        self.left
    }

    // Whether all has come.
    fn is_whole(&self) -> bool
        ensures { result ≡ is_whole_proof self.now.standing }
    {
        self.has_claim() && self.pairs_left() == 0 && self.subtrees_left() == 0
    }

    // The first row.
    fn take_first(&mut self, words: &[&[u8]]) -> Result<(), Stop<ProofReason>>
        ensures row { Takes (first_tests (texts words.now))
            (moved self.old (record self.old.standing { begun = true })) result self.new }
        ensures setting { self.new.setting ≡ self.old.setting }
    {
        if let Err(reason) = judge_first(words) {
            return Err(Stop::Fault(reason));
        }
        self.begun = true;
        Ok(())
    }

    // The claim.
    fn take_claim(&mut self, words: &[&[u8]]) -> Result<(), Stop<ProofReason>>
        ensures row { Takes (claim_tests (texts words.now))
            (moved self.old (with_claim self.old.standing (claim_in (texts words.now))))
            result self.new }
        ensures setting { self.new.setting ≡ self.old.setting }
    {
        match read_claim(words) {
            Ok(claim) => {
                self.claim = Some(claim);
                Ok(())
            }
            Err(reason) => Err(Stop::Fault(reason)),
        }
    }

    // Adds a node.
    fn add_node(&mut self, node: ProofNode) -> Result<(), AllocError>
        requires pairs { pairs_left self.old.standing ≡ 0 }
        requires subtrees { 0 < subtrees_left self.old.standing }
        ensures added { OnOk result (self.new
            ≡ moved self.old (with_node self.old.standing (Some node))) }
        ensures setting { self.new.setting ≡ self.old.setting }
    {
        let subtrees = subtrees_after(self.subtrees, node);
        self.nodes.push(node)?;
        self.subtrees = subtrees;
        self.left = announced_pairs(node);
        self.marks.clear();
        Ok(())
    }

    // A node of the tree.
    #[tactic(auto, unfolding(crate::specs::Tests::proof_node_tests))]
    fn take_node(&mut self, words: &[&[u8]]) -> Result<(), Stop<ProofReason>>
        requires pairs { pairs_left self.old.standing ≡ 0 }
        requires subtrees { 0 < subtrees_left self.old.standing }
        ensures row { Takes (proof_node_tests self.old.setting self.old.standing (texts words.now))
            (moved self.old (with_node self.old.standing (proof_node_in (texts words.now))))
            result self.new }
        ensures setting { self.new.setting ≡ self.old.setting }
    {
        if !is_node_row(self.claim, words) {
            return Err(Stop::Fault(ProofReason::BadLine));
        }
        let Some(node) = node_in(words) else {
            return Err(Stop::Fault(ProofReason::BadNumber));
        };
        if is_split_out(&self.kinds, node) {
            return Err(Stop::Fault(ProofReason::IndexOut));
        }
        if is_split_continuous(&self.kinds, node) {
            return Err(Stop::Fault(ProofReason::NotWhole));
        }
        if MOST_NODES <= self.nodes.len() {
            return Err(Stop::Fault(ProofReason::TooLarge));
        }
        self.add_node(node)?;
        Ok(())
    }

    // Whether the last leaf has a pair of a row.
    fn has_pair(&self, row: u32) -> bool
        requires { row < self.now.setting.rows }
        ensures { result
            ≡ has_pair (last_pairs self.now.standing.nodes self.now.standing.pairs) row }
    {
        self.marks.is_marked(row)
    }

    // Adds a pair.
    fn add_pair(&mut self, pair: (u32, Dec)) -> Result<(), AllocError>
        requires left { 0 < pairs_left self.old.standing }
        requires row { pair.0 < self.old.setting.rows }
        ensures added { OnOk result (self.new
            ≡ moved self.old (with_pair self.old.standing (Some pair))) }
        ensures setting { self.new.setting ≡ self.old.setting }
    {
        let row = pair.0;
        self.pairs.push(pair)?;
        self.left -= 1;
        self.marks.mark(row);
        Ok(())
    }

    // A pair of the last leaf.
    #[tactic(auto, unfolding(crate::specs::Tests::proof_pair_tests))]
    fn take_pair(&mut self, words: &[&[u8]]) -> Result<(), Stop<ProofReason>>
        requires { 0 < pairs_left self.old.standing }
        ensures row { Takes (proof_pair_tests self.old.setting self.old.standing (texts words.now))
            (moved self.old (with_pair self.old.standing (proof_pair_in (texts words.now))))
            result self.new }
        ensures setting { self.new.setting ≡ self.old.setting }
    {
        if words.len() != 2 {
            return Err(Stop::Fault(ProofReason::BadLine));
        }
        let Some(pair) = pair_in(words) else {
            return Err(Stop::Fault(ProofReason::BadNumber));
        };
        if self.rows <= pair.0 {
            return Err(Stop::Fault(ProofReason::IndexOut));
        }
        if self.has_pair(pair.0) {
            return Err(Stop::Fault(ProofReason::RepeatedIndex));
        }
        if MOST_PAIRS <= self.pairs.len() {
            return Err(Stop::Fault(ProofReason::TooLarge));
        }
        self.add_pair(pair)?;
        Ok(())
    }

    // Takes a row with a word.
    #[tactic(auto, unfolding(crate::specs::Tests::proof_row_tests))]
    fn take_row(&mut self, words: &[&[u8]]) -> Result<(), Stop<ProofReason>>
        ensures row { Takes (proof_row_tests self.old.setting self.old.standing (texts words.now))
            (moved self.old (with_row self.old.standing (texts words.now))) result self.new }
        ensures setting { self.new.setting ≡ self.old.setting }
    {
        if !self.has_begun() {
            return self.take_first(words);
        }
        if !self.has_claim() {
            return self.take_claim(words);
        }
        if self.pairs_left() > 0 {
            return self.take_pair(words);
        }
        if self.subtrees_left() > 0 {
            return self.take_node(words);
        }
        Err(Stop::Fault(ProofReason::Extra))
    }

    // Takes a line; one without words is left out.
    #[tactic(auto, unfolding(crate::specs::Tests::proof_line_tests))]
    fn take_line(&mut self, line: &[u8]) -> Result<(), Stop<ProofReason>>
        ensures row { Takes (proof_line_tests self.old.setting self.old.standing line.now)
            (moved self.old (with_line self.old.standing line.now)) result self.new }
        ensures setting { self.new.setting ≡ self.old.setting }
    {
        let row = Row::of(line);
        let words = row.words();
        if words.is_empty() {
            return Ok(());
        }
        self.take_row(words)
    }

    // The proof, at the end of the text.
    #[tactic(auto, unfolding(crate::specs::Tests::proof_end_tests))]
    fn end(self) -> Result<Proof, Stop<ProofReason>>
        ensures { DecidesOrStops (proof_end_tests self.standing) (λ p. IsSaid self.standing p) result }
    {
        if !self.begun {
            return Err(Stop::Fault(ProofReason::BadFirst));
        }
        if !self.is_whole() {
            return Err(Stop::Fault(ProofReason::Short));
        }
        let given = self.claim;
        let Some(claim) = given else {
            return Err(Stop::Fault(ProofReason::Short));
        };
        let ProofGrammar {
            rows: _,
            kinds: _,
            begun: _,
            claim: _,
            nodes,
            pairs,
            subtrees: _,
            left: _,
            marks: _,
        } = self;
        Ok(Proof::of_parts(claim, nodes, pairs))
    }
}
