// A line with a node.
ghost use Rattle.std.specs.Prelude.{◌≡◌, ℕ, List, true, false, IfSome, IsSomeAnd, OnOk, Ok, All};
ghost use Rattle.text_base.specs.Judged.{Decides};
ghost use Rattle.text_base.specs.Words.{texts};
ghost use Rattle.nl_model.specs.Nodes.{tree_of};
ghost use Rattle.nl_lines.specs.declared.awaited.Awaited.TheVariants.{Node, Nothing};
ghost use Rattle.nl_segments.specs.Current.{current_awaits, with_node_row};
ghost use Rattle.nl_lines.specs.Heads.{is_head};
ghost use Rattle.nl_lines.specs.NodeRows.{IsNodeKnown};
ghost use Rattle.nl_segments.specs.Held.{HoldsSome, IsAwaiting, TakesRow, body_of};
ghost use Rattle.nl_segments.specs.InsideKnownNodes.{HasGoodNode, IsGoodNode};
ghost use Rattle.nl_lines.specs.Pieces.{has_tree, keeps_pairs};
ghost use Rattle.nl_segments.specs.InsidePlaceSteps.{HasOwner, HasBegun, nodes_follow};
ghost use Rattle.nl_segments.specs.InsideTreeSteps.{CanSettle, CanTakeRow, IsNextRow, MayTake, IsFresh, with_tree, IsSettled, row_count, with_row_line, counted_node_tests};

use crate::body::BodyReader;
use crate::current::Current;
use crate::places::Places;
use nl_lines::{Awaited, Head, NlReason, NodeRow, read_node};
use nl_model::{Def, Expr, NlBuilder, Terms};
use std::alloc::AllocError;
use text_base::Stop;

/// A file has at most so many nodes.
pub(crate) const MOST_NODES: u32 = 4_194_304;

// A row of an expression, after so many nodes.
#[tactic(auto, using(text_base::proofs::FirstReasons::reason_after, nl_lines::proofs::NodeLemmas::too_large, nl_lines::proofs::NodeLemmas::not_large))]
fn read_row(words: &[&[u8]], builder: &NlBuilder, nodes: u32) -> Result<NodeRow, NlReason>
    ensures { Decides (counted_node_tests builder.now.counts builder.now nodes (texts words.now))
        (IsNextRow builder.now.counts nodes (texts words.now)) result }
{
    let row = match read_node(words, builder) {
        Ok(row) => row,
        Err(reason) => return Err(reason),
    };
    if nodes >= MOST_NODES {
        return Err(NlReason::TooLarge);
    }
    Ok(row)
}

/// How many nodes a row is.
pub(crate) fn row_count(row: NodeRow) -> u32
    ensures { result ≡ row_count row }
{
    match row {
        NodeRow::Whole(_) => 1,
        NodeRow::Counted(_) => 0,
    }
}

// Takes the line of a row, if it is a node.
fn add_row_line(places: &mut Places, head: Head, row: NodeRow, line: u32) -> Result<(), AllocError>
    requires owner { HasOwner places.old head }
    requires begun { HasBegun places.old head }
    ensures { OnOk result (places.new ≡ with_row_line places.old line head row) }
{
    match row {
        NodeRow::Whole(_) => places.add_node(head, line),
        NodeRow::Counted(_) => Ok(()),
    }
}

// Gives the expression of a piece of this head to the file.
fn give_tree(
    builder: &mut NlBuilder,
    head: Head,
    terms: Terms,
    tree: Expr,
) -> Result<(), AllocError>
    requires { MayTake builder.old head terms tree }
    ensures ok { OnOk result (builder.new ≡ with_tree builder.old head terms tree) }
    // Where no pairs are kept, no memory is wanted.
    ensures given { keeps_pairs head ≡ false → result ≡ Ok tt }
{
    match head {
        Head::Body(con) => builder.body(con, tree),
        Head::Objective(k, maximise) => builder.objective(k, maximise, tree),
        Head::Definition(index, _, usage) => builder.define(Def {
            index,
            terms,
            usage,
            tree,
        })?,
        _ => {}
    }
    Ok(())
}

// Gives the expression of a piece that is complete to the file.
#[tactic(auto, using(crate::proofs::TreeLaw::may_take))]
fn give_whole(builder: &mut NlBuilder, whole: Current) -> Result<(), AllocError>
    requires complete { current_awaits whole ≡ Nothing }
    requires tree { has_tree whole.head ≡ true }
    requires fresh { IsFresh builder.old whole.head whole.pairs }
    requires known { All
        (IsNodeKnown builder.old.counts.n_var builder.old.definitions) whole.nodes }
    ensures ok { OnOk result
        (builder.new ≡ with_tree builder.old whole.head whole.pairs (tree_of whole.nodes)) }
    ensures given { keeps_pairs whole.head ≡ false → result ≡ Ok tt }
{
    let head = whole.head();
    let (terms, nodes) = whole.into_parts();
    let tree = nodes.finish();
    give_tree(builder, head, terms, tree)
}

/// Gives the expression of the piece that is held to the file, where that is complete. It is not
/// held any more then.
pub(crate) fn settle(
    builder: &mut NlBuilder,
    current: &mut Option<Current>,
) -> Result<(), AllocError>
    requires { IsSomeAnd current.old (λ c. CanSettle builder.old c) }
    ensures settled { OnOk result
        (IfSome current.old (λ c. IsSettled builder.old c current.new builder.new)) }
    ensures given { IfSome current.old (λ c. keeps_pairs c.head ≡ false → result ≡ Ok tt) }
{
    let Some(held) = current else { unreachable!() };
    if held.awaited() != Awaited::Nothing {
        return Ok(());
    }
    let Some(whole) = current.take() else {
        unreachable!()
    };
    give_whole(builder, whole)
}

/// Takes a row of the expression of the piece that is held, whose node or opcode stands in this
/// line. A piece that is complete is not held any more, and its expression is given to the file.
pub(crate) fn take_row(
    builder: &mut NlBuilder,
    places: &mut Places,
    current: &mut Option<Current>,
    row: NodeRow,
    line: u32,
) -> Result<(), AllocError>
    requires { IsSomeAnd current.old (λ c. CanTakeRow builder.old places.old c row line) }
    ensures places { OnOk result (IfSome current.old
        (λ c. places.new ≡ with_row_line places.old line c.head row)) }
    ensures settled { OnOk result (IfSome current.old
        (λ c. IsSettled builder.old (with_node_row c line row) current.new builder.new)) }
{
    let Some(held) = current else { unreachable!() };
    let placed = row;
    add_row_line(places, held.head(), placed, line)?;
    held.take_row(row, line)?;
    settle(builder, current)
}

// Takes the line of a row, if it is a node. It follows those of the other nodes.
#[tactic(auto, using(crate::proofs::NodeFronts::one_node))]
fn add_next_line(places: &mut Places, head: Head, row: NodeRow, line: u32)
    requires owner { HasOwner places.old head }
    requires next { nodes_follow places.old head line ≡ true }
    ensures { places.new ≡ with_row_line places.old line head row }
{
    match row {
        NodeRow::Whole(_) => places.add_nodes(head, line, 1),
        NodeRow::Counted(_) => {}
    }
}

/// Takes such a row, as `take_row` does, where its line follows those of the other nodes of a
/// constraint or an objective. Else, and where memory is wanted, all stays.
pub(crate) fn take_next_row(
    builder: &mut NlBuilder,
    places: &mut Places,
    current: &mut Option<Current>,
    row: NodeRow,
    line: u32,
) -> bool
    requires { IsSomeAnd current.old (λ c. CanTakeRow builder.old places.old c row line) }
    ensures places { result ≡ true → IfSome current.old
        (λ c. places.new ≡ with_row_line places.old line c.head row) }
    ensures settled { result ≡ true → IfSome current.old
        (λ c. IsSettled builder.old (with_node_row c line row) current.new builder.new) }
    ensures stays { result ≡ false → (builder.new ≡ builder.old) × (places.new ≡ places.old)
        × (current.new ≡ current.old) }
{
    let Some(held) = current else { unreachable!() };
    let head = held.head();
    if !places.nodes_follow(head, line) {
        return false;
    }
    let placed = row;
    let Ok(()) = held.take_row(row, line) else {
        return false;
    };
    add_next_line(places, head, placed, line);
    let Ok(()) = settle(builder, current) else {
        unreachable!()
    };
    true
}

impl BodyReader {
    /// A line with a node.
    pub(crate) fn take_node(&mut self, words: &[&[u8]], line: u32) -> Result<(), Stop<NlReason>>
        requires awaited { IsAwaiting Node (body_of self.old) }
        requires row { is_head (texts words.now) ≡ false }
        requires held { HoldsSome (body_of self.old) }
        ensures { TakesRow (body_of self.old) (texts words.now) line result (body_of self.new) }
    {
        let row = match read_row(words, &self.builder, self.nodes) {
            Ok(row) => row,
            Err(reason) => return Err(Stop::Fault(reason)),
        };
        self.keep_node(row, line)
    }

    /// Keeps a row of an expression with which nothing is wrong.
    pub(crate) fn keep_node(&mut self, row: NodeRow, line: u32) -> Result<(), Stop<NlReason>>
        requires awaited { IsAwaiting Node (body_of self.old) }
        requires held { HoldsSome (body_of self.old) }
        requires good { HasGoodNode (body_of self.old) row }
        ensures { (words : List (List ℕ)) → IsGoodNode (body_of self.old) row words
            → TakesRow (body_of self.old) words line result (body_of self.new) }
    {
        let counted = row;
        self.nodes += row_count(counted);
        take_row(
            &mut self.builder,
            &mut self.places,
            &mut self.current,
            row,
            line,
        )?;
        Ok(())
    }
}
