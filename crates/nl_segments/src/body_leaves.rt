// A line with a node that is a letter and a number alone.
ghost use Rattle.std.specs.Prelude.{◌≤◌, ◌+◌, ◌-◌, ◌^◌, List, ℕ, All, IfSome, length};
ghost use Rattle.text_base.specs.Judged.{Decides};
ghost use Rattle.nl_lines.specs.declared.awaited.Awaited.TheVariants.{Node};
ghost use Rattle.nl_segments.specs.Current.{Current as CurrentValue};
ghost use Rattle.nl_segments.specs.Held.{Body, HoldsSome, IsAwaiting, body_of};
ghost use Rattle.nl_segments.specs.InsideNodeRuns.{AwaitsNodes, HasNodes, with_nodes};
ghost use Rattle.nl_lines.specs.FirstRows.{IsFirstRow};
ghost use Rattle.nl_lines.specs.Leaves.{IsLeafRow};
ghost use Rattle.nl_lines.specs.NodeRows.{IsNodeKnown};
ghost use Rattle.nl_segments.specs.InsideTermRuns.{TakesLines};
ghost use Rattle.nl_segments.specs.InsideTreeSteps.{IsNextRow, counted_node_tests};

use crate::body::BodyReader;
use crate::body_nodes::{MOST_NODES, row_count, settle, take_next_row};
use exact_numbers::Dec;
use nl_lines::{Awaited, FirstLeaf, Leaf, NlReason, NodeRow, first_leaf, read_leaf_row};
use nl_model::{ExprBuilder, NlBuilder};
use text_base::{Front, Stop};

// A row of an expression, after so many nodes.
#[tactic(auto, using(text_base::proofs::FirstReasons::reason_after, nl_lines::proofs::NodeLemmas::too_large))]
pub(crate) fn read_next(leaf: Leaf, builder: &NlBuilder, nodes: u32) -> Result<NodeRow, NlReason>
    ensures { (words : List (List ℕ)) → IsLeafRow words leaf
        → Decides (counted_node_tests builder.now.counts builder.now nodes words)
        (IsNextRow builder.now.counts nodes words) result }
{
    let row = match read_leaf_row(leaf, builder) {
        Ok(row) => row,
        Err(reason) => return Err(reason),
    };
    if nodes >= MOST_NODES {
        return Err(NlReason::TooLarge);
    }
    Ok(row)
}

// What the line that a text begins with says in an expression. That of a product, which stands at
// each term, is known by its three bytes.
#[inline]
fn first_line(text: &[u8]) -> Option<FirstLeaf>
    ensures { IfSome result
        (λ p. IsFirstRow text.now p.len (λ words. IsLeafRow words p.leaf)) }
{
    if text.len() >= 3 && text[0] == b'o' && text[1] == b'2' && text[2] == b'\n' {
        return Some(FirstLeaf {
            leaf: Leaf::Opcode(2),
            len: 3,
        });
    }
    first_leaf(text)
}

/// What the line that a text begins with says in an expression, where that is the number 0.
#[inline]
pub(crate) fn first_zero(text: &[u8]) -> Option<FirstLeaf>
    ensures { IfSome result
        (λ p. IsFirstRow text.now p.len (λ words. IsLeafRow words p.leaf)) }
{
    if text.len() >= 3 && text[0] == b'n' && text[1] == b'0' && text[2] == b'\n' {
        return Some(FirstLeaf {
            leaf: Leaf::Number(Dec::zero()),
            len: 3,
        });
    }
    None
}

/// Gives an expression the nodes of lines at the front of a piece, after so many nodes of the file,
/// up to a line that is an opcode whose number of operands is on the next.
pub(crate) fn give_nodes(
    builder: &NlBuilder,
    nodes: &mut ExprBuilder,
    before: u32,
    piece: &[u8],
) -> Front
    requires { HasNodes builder.now nodes.old before }
    ensures few { result.lines ≤ 2 ^ 22 - before }
    ensures known { All (IsNodeKnown builder.now.counts.n_var builder.now.definitions) nodes.new }
    ensures takes { (b : Body) (cur : CurrentValue) (number : ℕ)
        → AwaitsNodes builder.now nodes.old before b cur
        → TakesLines b piece.now number result (with_nodes b cur nodes.new number result.lines) }
{
    let mut front = Front { len: 0, lines: 0 };
    'lines: while nodes.wants() > 0 {
        let Some(line) = first_line(piece.split_at(front.len).1) else {
            return front;
        };
        let Ok(row) = read_next(line.leaf, builder, before + front.lines) else {
            return front;
        };
        let NodeRow::Whole(node) = row else {
            return front;
        };
        let Ok(()) = nodes.push(node) else {
            return front;
        };
        front = Front {
            len: front.len + line.len,
            lines: front.lines + 1,
        };
    }
    front
}

impl BodyReader {
    // Takes the line at the front of a piece, which has this number, where that is a letter and a
    // number alone, and follows the lines of the other nodes.
    fn take_leaf_line(&mut self, piece: &[u8], number: u32) -> Front
        requires awaited { IsAwaiting Node (body_of self.old) }
        requires held { HoldsSome (body_of self.old) }
        ensures { TakesLines (body_of self.old) piece.now number result (body_of self.new) }
    {
        let Some(first) = first_line(piece) else {
            return Front { len: 0, lines: 0 };
        };
        let Ok(row) = read_next(first.leaf, &self.builder, self.nodes) else {
            return Front { len: 0, lines: 0 };
        };
        let counted = row;
        let taken = take_next_row(
            &mut self.builder,
            &mut self.places,
            &mut self.current,
            row,
            number,
        );
        if !taken {
            return Front { len: 0, lines: 0 };
        }
        self.nodes += row_count(counted);
        Front {
            len: first.len,
            lines: 1,
        }
    }

    // Takes nodes of lines at the front of a piece, of which the first line has this number and
    // follows the lines of the other nodes.
    fn take_node_run(&mut self, piece: &[u8], number: u32) -> Front
        requires awaited { IsAwaiting Node (body_of self.old) }
        requires held { HoldsSome (body_of self.old) }
        requires few { number + length piece.now ≤ 2 ^ 31 + 1 }
        ensures { TakesLines (body_of self.old) piece.now number result (body_of self.new) }
    {
        let Some(current) = &mut self.current else {
            unreachable!()
        };
        let head = current.head();
        if !self.places.nodes_follow(head, number) {
            return Front { len: 0, lines: 0 };
        }
        let front = current.take_nodes(&self.builder, self.nodes, piece);
        self.nodes += front.lines;
        self.places.add_nodes(head, number, front.lines);
        let Ok(()) = settle(&mut self.builder, &mut self.current) else {
            unreachable!()
        };
        front
    }

    /// Takes rows of an expression at the front of a piece, of which the first line has this
    /// number: one, and the nodes behind it.
    pub(crate) fn take_nodes(&mut self, piece: &[u8], number: u32) -> Front
        requires awaited { IsAwaiting Node (body_of self.old) }
        requires held { HoldsSome (body_of self.old) }
        requires few { number + length piece.now ≤ 2 ^ 31 + 1 }
        ensures { TakesLines (body_of self.old) piece.now number result (body_of self.new) }
    {
        let first = self.take_leaf_line(piece, number);
        if first.len == 0 || self.awaited() != Awaited::Node {
            return first;
        }
        let more = self.take_node_run(piece.split_at(first.len).1, number + first.lines);
        Front {
            len: first.len + more.len,
            lines: first.lines + more.lines,
        }
    }
}
