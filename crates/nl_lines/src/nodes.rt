// Lines of expressions.
ghost use Rattle.std.specs.Prelude.{◌≡◌, true, Some, None, codes, option_map, option_and_then};
ghost use Rattle.text_base.specs.Judged.{Decides};
ghost use Rattle.text_base.specs.Words.{texts};
ghost use Rattle.code_tables.specs.Opcodes.{operands_of};
ghost use Rattle.nl_model.specs.declared.node.Node.TheVariants.{Num};
ghost use Rattle.nl_lines.specs.Heads.{is_among};
ghost use Rattle.nl_lines.specs.Nodes.{dec_of_signed, fixed_node, counted_opcode, variable_node, node_in, opcode_in};
ghost use Rattle.nl_lines.specs.NodeRows.{IsFormedRow, IsReadAs, IsRow};
ghost use Rattle.nl_lines.specs.Tests.{is_node_form, is_undefined, number_tests, variable_tests, opcode_tests, leaf_tests, node_form_tests};

use crate::fault::NlReason;
use crate::heads::defined_end;
use crate::node_row::NodeRow;
use crate::words::{leaf_text, letter_of, own_number};
use code_tables::{Operands, operands_of};
use exact_numbers::{Dec, are_digits, dec_of, signed_of};
use nl_model::{Counts, NlBuilder, Node};

fn is_leaf_letter(letter: u8) -> bool
    ensures { result ≡ is_among (codes "onslv") letter }
{
    matches!(letter, b'o' | b'n' | b's' | b'l' | b'v')
}

fn is_refused_leaf(letter: u8) -> bool
    ensures { result ≡ is_among (codes "fh") letter }
{
    matches!(letter, b'f' | b'h')
}

fn wants_digits(letter: u8) -> bool
    ensures { result ≡ is_among (codes "ov") letter }
{
    matches!(letter, b'o' | b'v')
}

// Whether the letter is that of a node, and digits follow that of a variable or of an opcode.
fn is_node_form(words: &[&[u8]]) -> bool
    ensures { result ≡ is_node_form (texts words.now) }
{
    if words.len() != 1 {
        return false;
    }
    let letter = letter_of(words);
    if !is_leaf_letter(letter) {
        return false;
    }
    if !wants_digits(letter) {
        return true;
    }
    are_digits(leaf_text(words))
}

// The number of a signed whole number.
fn dec_of_signed(word: &[u8]) -> Option<Dec>
    ensures { result ≡ dec_of_signed word.now }
{
    match signed_of(word) {
        Some(number) => Some(Dec::of_whole(number as i64)),
        None => None,
    }
}

/// A number.
pub fn read_number(value: Option<Dec>) -> Result<NodeRow, NlReason>
    ensures { Decides (number_tests value) (IsReadAs (option_map Num value) None) result }
{
    match value {
        Some(d) => Ok(NodeRow::Whole(Node::Num(d))),
        None => Err(NlReason::BadNumber),
    }
}

fn variable_node(counts: &Counts, index: u32) -> Node
    ensures { result ≡ variable_node counts.now.n_var index }
{
    if index < counts.n_var {
        return Node::Var(index);
    }
    Node::Defined(index)
}

// Whether the index is that of a defined variable that is not complete.
fn is_undefined(builder: &NlBuilder, index: u32) -> bool
    ensures { result ≡ is_undefined builder.now.counts builder.now index }
{
    builder.header().counts().n_var <= index && !builder.has_def(index)
}

/// A variable.
pub fn read_variable(builder: &NlBuilder, index: Option<u32>) -> Result<NodeRow, NlReason>
    ensures { Decides (variable_tests builder.now.counts builder.now index)
        (IsReadAs (option_map (variable_node builder.now.counts.n_var) index) None) result }
{
    let counts = builder.header().counts();
    let Some(i) = index else {
        return Err(NlReason::IndexOut);
    };
    if i as u64 >= defined_end(counts) {
        return Err(NlReason::IndexOut);
    }
    if is_undefined(builder, i) {
        return Err(NlReason::Undefined);
    }
    Ok(NodeRow::Whole(variable_node(counts, i)))
}

// What an opcode is with its operands.
fn opcode_row(opcode: u32, operands: Operands) -> NodeRow
    requires { operands_of opcode ≡ Some operands }
    ensures row { IsRow (fixed_node opcode (Some operands))
        (counted_opcode opcode (Some operands)) result }
    ensures formed { IsFormedRow result }
{
    match operands {
        Operands::One => NodeRow::Whole(Node::Op(opcode, 1)),
        Operands::Two => NodeRow::Whole(Node::Op(opcode, 2)),
        Operands::Counted => NodeRow::Counted(opcode),
    }
}

/// An opcode.
pub fn read_opcode(opcode: Option<u32>) -> Result<NodeRow, NlReason>
    ensures { Decides (opcode_tests opcode)
        (IsReadAs (option_and_then (λ o. fixed_node o (operands_of o)) opcode)
        (option_and_then (λ o. counted_opcode o (operands_of o)) opcode)) result }
{
    let Some(o) = opcode else {
        return Err(NlReason::BadNumber);
    };
    let Some(operands) = operands_of(o) else {
        return Err(NlReason::RefusedOpcode(o));
    };
    Ok(opcode_row(o, operands))
}

// A row of the form of a node.
#[tactic(auto, unfolding(crate::specs::Nodes::node_in, crate::specs::Nodes::opcode_in))]
fn read_leaf(words: &[&[u8]], builder: &NlBuilder) -> Result<NodeRow, NlReason>
    requires { is_node_form (texts words.now) ≡ true }
    ensures { Decides (leaf_tests builder.now.counts builder.now (texts words.now))
        (IsReadAs (node_in builder.now.counts.n_var (texts words.now))
        (opcode_in (texts words.now))) result }
{
    match letter_of(words) {
        b'n' => read_number(dec_of(leaf_text(words))),
        b'v' => read_variable(builder, own_number(words)),
        b'o' => read_opcode(own_number(words)),
        _ => read_number(dec_of_signed(leaf_text(words))),
    }
}

/// A row of an expression.
#[tactic(auto, unfolding(crate::specs::Tests::node_form_tests))]
pub fn read_node(words: &[&[u8]], builder: &NlBuilder) -> Result<NodeRow, NlReason>
    ensures { Decides (node_form_tests builder.now.counts builder.now (texts words.now))
        (IsReadAs (node_in builder.now.counts.n_var (texts words.now))
        (opcode_in (texts words.now))) result }
{
    if is_refused_leaf(letter_of(words)) {
        return Err(NlReason::RefusedLeaf);
    }
    if !is_node_form(words) {
        return Err(NlReason::BadLine);
    }
    read_leaf(words, builder)
}
