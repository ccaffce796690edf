// Sums of leaves: numbers, and factors times variables. Where the variables ascend, the factors are the
// coefficients of a form: as they stand, or as fractions where the first is divided by a number.
ghost use Rattle.std.specs.Prelude.{◌≡◌, ◌∷◌, [], ℕ, ◌+◌, ◌<◌, ◌≤◌, None, Some, drop, IfOk, IfSome, length, true};
ghost use Rattle.exact_numbers.specs.Values.{frac_value};
ghost use Rattle.linear_program.specs.Lines.{Point};
ghost use Rattle.nl_model.specs.Trees.{Known, first_trees};
ghost use Rattle.nl_model.specs.Nodes.{trees_of};
ghost use Rattle.exact_numbers.specs.Rational.{zero_ℚ};
ghost use Rattle.linear_program.specs.Coefs.{value_or_zero};
ghost use Rattle.linear_program.specs.Forms.{parts_line};
ghost use Rattle.nl_model.specs.declared.node.Node.TheVariants.{Op};
ghost use Rattle.linear_fold.specs.InsideLeafSums.{AddsLeaf, Appends, AreLeaves, AreTerms, IsFormOf, IsInverse, IsLeafAt, IsListOf, IsMultipleAt, IsMultipleOf, IsNoLeaf, IsNumberAt, IsVariableOver, SumsUpTo, factors_in, leaves_line};
ghost use Rattle.linear_fold.specs.InsideOperates.{zero_line};

use exact_numbers::{Dec, Frac};
use linear_program::{Coefficients, Form, Terms};
use nl_model::Node;
use std::alloc::{AllocError, Global};
use text_base::{Ledger, Steps};

const PRODUCT: u32 = 2;

const QUOTIENT: u32 = 3;

const LIST: u32 = 54;

/// A number, or a factor times a variable, and how many nodes it has.
#[derive(Clone, Copy)]
pub(crate) struct Leaf {
    pub(crate) variable: Option<u32>,
    pub(crate) factor: Dec,
    pub(crate) size: usize,
}

/// A fraction times a variable, and how many nodes it has.
#[derive(Clone, Copy)]
pub(crate) struct Multiple {
    pub(crate) variable: u32,
    pub(crate) factor: Frac,
    pub(crate) size: usize,
}

/// What leaves come to: terms that ascend, of variables below one of them, and the one number.
#[derive(Drop)]
pub(crate) struct LeafSum {
    pub(crate) terms: Terms,
    pub(crate) number: Option<Frac>,
    pub(crate) least: u32,
}

// The product of a number and a variable.
#[inline]
fn factors_of(first: Node, second: Node) -> Option<Leaf>
    ensures { IfSome result (λ l. factors_in first second ≡ Some l) }
{
    match first {
        Node::Num(factor) => {
            let Node::Var(variable) = second else {
                return None;
            };
            Some(Leaf {
                variable: Some(variable),
                factor,
                size: 3,
            })
        }
        Node::Var(variable) => {
            let Node::Num(factor) = second else {
                return None;
            };
            Some(Leaf {
                variable: Some(variable),
                factor,
                size: 3,
            })
        }
        _ => None,
    }
}

// The product of a number and a variable that stands at a place.
#[inline]
fn product_at(nodes: &[Node], place: usize) -> Option<Leaf>
    requires { place ≤ length nodes.now }
    ensures { IfSome result (λ l. IsLeafAt nodes.now place l) }
{
    if nodes.len() - place < 3 {
        return None;
    }
    let node = nodes[place];
    let Node::Op(opcode, count) = node else {
        return None;
    };
    if opcode != PRODUCT {
        return None;
    }
    if count != 2 {
        return None;
    }
    let first = nodes[place + 1];
    let second = nodes[place + 2];
    factors_of(first, second)
}

// The leaf at a place.
#[inline(always)]
fn leaf_at(nodes: &[Node], place: usize) -> Option<Leaf>
    requires { place ≤ length nodes.now }
    ensures { IfSome result (λ l. IsLeafAt nodes.now place l) }
{
    if place == nodes.len() {
        return None;
    }
    let node = nodes[place];
    match node {
        Node::Num(factor) => Some(Leaf {
            variable: None,
            factor,
            size: 1,
        }),
        Node::Var(variable) => Some(Leaf {
            variable: Some(variable),
            factor: Dec::of_whole(1),
            size: 1,
        }),
        Node::Defined(_) => None,
        Node::Op(_, _) => product_at(nodes, place),
    }
}

// Adds a number, where there is none yet and this has a fraction.
#[inline]
fn add_number(sum: &mut LeafSum, number: Dec) -> bool
    ensures { (n : ℕ) → result ≡ true → AreLeaves n sum.old
        → AddsLeaf n sum.old None number sum.new }
{
    let None = sum.number else {
        return false;
    };
    let Some(fraction) = Frac::of_dec(number) else {
        return false;
    };
    sum.number = Some(fraction);
    true
}

// Adds a factor times a variable behind those so far, where the factor is not 0 and has a fraction.
#[inline]
fn add_multiple(
    sum: &mut LeafSum,
    variable: u32,
    factor: Dec,
    variables: u32,
) -> Result<bool, AllocError>
    requires { AreLeaves variables sum.old }
    ensures { IfOk result
        (λ added. added ≡ true → AddsLeaf variables sum.old (Some variable) factor sum.new) }
{
    if variable < sum.least {
        return Ok(false);
    }
    if variable >= variables {
        return Ok(false);
    }
    if factor.is_zero() {
        return Ok(false);
    }
    if !factor.has_fraction() {
        return Ok(false);
    }
    sum.terms.push((variable, factor))?;
    sum.least = variable + 1;
    Ok(true)
}

// Adds a leaf, where it can be.
#[inline]
fn add_leaf(sum: &mut LeafSum, leaf: &Leaf, variables: u32) -> Result<bool, AllocError>
    requires { AreLeaves variables sum.old }
    ensures { IfOk result
        (λ added. added ≡ true
        → AddsLeaf variables sum.old leaf.now.variable leaf.now.factor sum.new) }
{
    match leaf.variable {
        Some(variable) => add_multiple(sum, variable, leaf.factor, variables),
        None => Ok(add_number(sum, leaf.factor)),
    }
}

// Adds so many leaves, of which the first is the second node; a step for each.
fn add_leaves<L: Ledger>(
    nodes: &[Node],
    count: u32,
    sum: &mut LeafSum,
    variables: u32,
    steps: &mut Steps<L>,
) -> Result<bool, AllocError>
    requires some { 1 ≤ length nodes.now }
    requires leaves { AreLeaves variables sum.old }
    requires none { IsNoLeaf sum.old }
    ensures leaves { IfOk result (λ all. all ≡ true → AreLeaves variables sum.new) }
    ensures sum { IfOk result
        (λ all. (known : Point → Known) → all ≡ true
        → SumsUpTo known variables 1 (first_trees count (trees_of (drop 1 nodes.now))) zero_line
        (leaves_line sum.new)) }
    ensures above { steps.old ≤ steps.new }
    ensures below { steps.new ≤ steps.old + (variables + 1) }
{
    let mut place: usize = 1;
    for _ in 0..count {
        let Some(leaf) = leaf_at(nodes, place) else {
            return Ok(false);
        };
        let added = add_leaf(sum, &leaf, variables)?;
        if !added {
            return Ok(false);
        }
        steps.tick();
        place += leaf.size;
    }
    Ok(true)
}

// The number of leaves, 0 where there is none.
fn number_or_zero(number: Option<Frac>) -> Frac
    ensures { frac_value result ≡ value_or_zero number }
{
    match number {
        Some(number) => number,
        None => Frac::zero(),
    }
}

// The number of operands, where the first node is a sum of any number of them.
fn list_count(nodes: &[Node]) -> Option<u32>
    ensures { IfSome result (λ k. IsListOf nodes.now k) }
{
    if nodes.len() == 0 {
        return None;
    }
    let node = nodes[0];
    let Node::Op(opcode, count) = node else {
        return None;
    };
    if opcode != LIST {
        return None;
    }
    Some(count)
}

// The multiple that a leaf is, where its factor has a fraction.
#[inline]
fn multiple_of(leaf: &Leaf) -> Option<Multiple>
    ensures { IfSome result (λ m. IsMultipleOf leaf.now m) }
{
    let Some(variable) = leaf.variable else {
        return None;
    };
    let Some(factor) = Frac::of_dec(leaf.factor) else {
        return None;
    };
    Some(Multiple {
        variable,
        factor,
        size: leaf.size,
    })
}

// A variable, or a factor times one, at a place.
#[inline(always)]
fn plain_multiple(nodes: &[Node], place: usize) -> Option<Multiple>
    requires { place ≤ length nodes.now }
    ensures { IfSome result (λ m. IsMultipleAt nodes.now place m) }
{
    let Some(leaf) = leaf_at(nodes, place) else {
        return None;
    };
    multiple_of(&leaf)
}

// The number at a place.
#[inline]
fn number_at(nodes: &[Node], place: usize) -> Option<Dec>
    ensures { IfSome result (λ d. IsNumberAt nodes.now place d) }
{
    if place >= nodes.len() {
        return None;
    }
    let node = nodes[place];
    let Node::Num(number) = node else {
        return None;
    };
    Some(number)
}

// One divided by a number that is not 0 and has a fraction.
#[inline]
fn inverse(divisor: Dec) -> Option<Frac>
    ensures { IfSome result (λ f. IsInverse divisor f) }
{
    let Some(divisor) = Frac::of_dec(divisor) else {
        return None;
    };
    if divisor.is_zero() {
        return None;
    }
    Some(divisor.reciprocal())
}

// Whether a node is a quotient.
#[inline]
fn is_quotient(node: Node) -> bool
    ensures { result ≡ true → node ≡ Op 3 2 }
{
    match node {
        Node::Op(opcode, count) => opcode == QUOTIENT && count == 2,
        _ => false,
    }
}

// The quotient of a variable by a number.
#[inline]
fn variable_over(first: Node, second: Node) -> Option<Multiple>
    ensures { IfSome result (λ m. IsVariableOver first second m) }
{
    let Node::Var(variable) = first else {
        return None;
    };
    let Node::Num(divisor) = second else {
        return None;
    };
    let Some(factor) = inverse(divisor) else {
        return None;
    };
    Some(Multiple {
        variable,
        factor,
        size: 3,
    })
}

// The same at a place.
#[inline]
fn variable_quotient(nodes: &[Node], place: usize) -> Option<Multiple>
    requires within { place < length nodes.now }
    requires quotient { drop place nodes.now ≡ Op 3 2 ∷ drop (place + 1) nodes.now }
    ensures { IfSome result (λ m. IsMultipleAt nodes.now place m) }
{
    if nodes.len() - place < 3 {
        return None;
    }
    let first = nodes[place + 1];
    let second = nodes[place + 2];
    variable_over(first, second)
}

// The quotient of a variable, or of a factor times one, by a number.
#[inline]
fn quotient_at(nodes: &[Node], place: usize) -> Option<Multiple>
    requires within { place < length nodes.now }
    requires quotient { drop place nodes.now ≡ Op 3 2 ∷ drop (place + 1) nodes.now }
    ensures { IfSome result (λ m. IsMultipleAt nodes.now place m) }
{
    if let Some(multiple) = variable_quotient(nodes, place) {
        return Some(multiple);
    }
    let Some(dividend) = plain_multiple(nodes, place + 1) else {
        return None;
    };
    let Some(divisor) = number_at(nodes, place + 1 + dividend.size) else {
        return None;
    };
    let Some(reciprocal) = inverse(divisor) else {
        return None;
    };
    let Some(factor) = dividend.factor.mul(reciprocal) else {
        return None;
    };
    Some(Multiple {
        variable: dividend.variable,
        factor,
        size: dividend.size + 2,
    })
}

// The multiple at a place.
#[inline]
fn multiple_at(nodes: &[Node], place: usize) -> Option<Multiple>
    requires { place ≤ length nodes.now }
    ensures { IfSome result (λ m. IsMultipleAt nodes.now place m) }
{
    if place == nodes.len() {
        return None;
    }
    let node = nodes[place];
    if is_quotient(node) {
        return quotient_at(nodes, place);
    }
    plain_multiple(nodes, place)
}

// Adds a multiple behind those so far, where its factor is not 0.
#[inline]
fn append(
    terms: &mut Vec<(u32, Frac)>,
    multiple: &Multiple,
    least: u32,
    variables: u32,
) -> Result<bool, AllocError>
    ensures { IfOk result
        (λ added. added ≡ true
        → Appends variables least terms.old.items multiple.now terms.new.items) }
{
    let variable = multiple.variable;
    if variable < least {
        return Ok(false);
    }
    if variable >= variables {
        return Ok(false);
    }
    if multiple.factor.is_zero() {
        return Ok(false);
    }
    terms.push((variable, multiple.factor))?;
    Ok(true)
}

// Adds so many multiples, of which the first is the second node; a step for each.
fn add_multiples<L: Ledger>(
    nodes: &[Node],
    count: u32,
    terms: &mut Vec<(u32, Frac)>,
    variables: u32,
    steps: &mut Steps<L>,
) -> Result<bool, AllocError>
    requires some { 1 ≤ length nodes.now }
    requires none { terms.old.items ≡ [] }
    ensures terms { IfOk result (λ all. all ≡ true → AreTerms variables terms.new.items) }
    ensures sum { IfOk result
        (λ all. (known : Point → Known) → all ≡ true
        → SumsUpTo known variables 1 (first_trees count (trees_of (drop 1 nodes.now))) zero_line
        (parts_line zero_ℚ terms.new.items)) }
    ensures above { steps.old ≤ steps.new }
    ensures below { steps.new ≤ steps.old + (variables + 1) }
{
    let mut place: usize = 1;
    let mut least: u32 = 0;
    for _ in 0..count {
        let Some(multiple) = multiple_at(nodes, place) else {
            return Ok(false);
        };
        let added = append(terms, &multiple, least, variables)?;
        if !added {
            return Ok(false);
        }
        steps.tick();
        least = multiple.variable + 1;
        place += multiple.size;
    }
    Ok(true)
}

// The form of a sum of multiples whose variables ascend; none of other sums. A step for each.
fn multiple_sum<L: Ledger>(
    alloc: Global,
    nodes: &[Node],
    count: u32,
    variables: u32,
    steps: &mut Steps<L>,
) -> Result<Option<Form>, AllocError>
    requires { IsListOf nodes.now count }
    ensures form { IfOk result (λ o. IfSome o (IsFormOf variables nodes.now)) }
    ensures above { steps.old ≤ steps.new }
    ensures below { steps.new ≤ steps.old + (variables + 1) }
{
    let mut terms = Vec::with_capacity(alloc, count as usize)?;
    let all = add_multiples(nodes, count, &mut terms, variables, steps)?;
    if !all {
        return Ok(None);
    }
    let form = Form::new(alloc).with_coefficients(Coefficients::of_items(terms));
    Ok(Some(form))
}

// Whether the second node is a quotient.
fn has_quotient(nodes: &[Node]) -> bool {
    nodes.len() > 1 && is_quotient(nodes[1])
}

/// The form of a sum of leaves whose variables ascend, below the number of variables, and at most one
/// of which is a number; or of multiples, where the first is a quotient. None of other trees. A step
/// for each leaf.
pub(crate) fn leaf_sum<L: Ledger>(
    alloc: Global,
    nodes: &[Node],
    variables: u32,
    steps: &mut Steps<L>,
) -> Result<Option<Form>, AllocError>
    ensures form { IfOk result (λ o. IfSome o (IsFormOf variables nodes.now)) }
    ensures above { steps.old ≤ steps.new }
    ensures below { steps.new ≤ steps.old + (variables + 1) }
{
    let Some(count) = list_count(nodes) else {
        return Ok(None);
    };
    if has_quotient(nodes) {
        return multiple_sum(alloc, nodes, count, variables, steps);
    }
    let mut sum = LeafSum {
        terms: Terms::new(alloc),
        number: None,
        least: 0,
    };
    sum.terms.make_room(count as usize)?;
    let all = add_leaves(nodes, count, &mut sum, variables, steps)?;
    if !all {
        return Ok(None);
    }
    let LeafSum { terms, number, .. } = sum;
    Ok(Some(Form::of_terms(number_or_zero(number), terms)))
}
