// Expressions, a node a line.
ghost use Rattle.std.specs.Prelude.{◌≡◌, ◌++◌, ◌∷◌, [], OnOk, codes};
ghost use Rattle.text_base.specs.WordLines.{line_text, lines_text};
ghost use Rattle.nl_writer.specs.Trees.{is_counted, operator_lines, node_lines, tree_lines};
ghost use Rattle.nl_writer.specs.Written.{lettered};
ghost use Rattle.code_tables.specs.Opcodes.{operands_of};
ghost use Rattle.std.specs.Fmt.{decimal};

use crate::words::put_lettered;
use code_tables::{Operands, operands_of};
use nl_model::{Expr, Node};
use std::alloc::AllocError;
use written_texts::{put, put_dec, put_end, put_number};

// Whether the number of operands stands on the next line.
fn is_counted(opcode: u32) -> bool
    ensures { result ≡ is_counted (operands_of opcode) }
{
    match operands_of(opcode) {
        Some(Operands::Counted) => true,
        _ => false,
    }
}

fn put_operand_count(out: &mut Vec<u8>, count: u32) -> Result<(), AllocError>
    ensures { OnOk result (out.new.items ≡ out.old.items ++ line_text (decimal count ∷ [])) }
{
    put_number(out, count as u64)?;
    put_end(out)
}

fn put_lettered_line(out: &mut Vec<u8>, letter: &[u8], number: u32) -> Result<(), AllocError>
    ensures { OnOk result (out.new.items
        ≡ out.old.items ++ line_text (lettered letter.now number ∷ [])) }
{
    put_lettered(out, letter, number as u64)?;
    put_end(out)
}

// An opcode, and its number of operands where the next line has it.
fn put_operator(out: &mut Vec<u8>, opcode: u32, count: u32) -> Result<(), AllocError>
    ensures { OnOk result (out.new.items
        ≡ out.old.items ++ lines_text (operator_lines opcode count)) }
{
    put_lettered_line(out, b"o", opcode)?;
    if is_counted(opcode) {
        put_operand_count(out, count)?;
    }
    Ok(())
}

fn put_node(out: &mut Vec<u8>, node: Node) -> Result<(), AllocError>
    ensures { OnOk result (out.new.items ≡ out.old.items ++ lines_text (node_lines node)) }
{
    match node {
        Node::Num(value) => {
            put(out, b"n")?;
            put_dec(out, value)?;
            put_end(out)
        }
        Node::Var(index) => put_lettered_line(out, b"v", index),
        Node::Defined(index) => put_lettered_line(out, b"v", index),
        Node::Op(opcode, count) => put_operator(out, opcode, count),
    }
}

pub(crate) fn put_tree(out: &mut Vec<u8>, tree: &Expr) -> Result<(), AllocError>
    ensures { OnOk result (out.new.items ≡ out.old.items ++ lines_text (tree_lines tree.now)) }
{
    let nodes = tree.nodes();
    for node in nodes {
        put_node(out, *node)?;
    }
    Ok(())
}
