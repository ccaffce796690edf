// A head, and the line behind it where that is all of its piece, which are taken at once.
ghost use Rattle.std.specs.Prelude.{◌≡◌, ◌≤◌, ◌+◌, ◌^◌, List, ℕ, length, false, IfSome};
ghost use Rattle.nl_lines.specs.declared.head.Head.TheVariants.{Body as BodyHead, Terms as TermsHead};
ghost use Rattle.nl_lines.specs.Pieces.{keeps_pairs};
ghost use Rattle.nl_lines.specs.SeenSegments.{IsSeenIn};
ghost use Rattle.nl_segments.specs.Held.{body_of};
ghost use Rattle.nl_segments.specs.InsidePieces.{Begins, IsLeafTree, IsNextTerm, MayBegin, with_head_passed};
ghost use Rattle.nl_segments.specs.InsidePlaceSteps.{HasOwner};

use crate::body::BodyReader;
use crate::body_heads::{begun_current, make_room};
use crate::body_leaves::{first_zero, read_next};
use crate::body_pairs::count_use;
use nl_lines::{FirstPair, Head, MOST_TERMS, NodeRow, first_pair};
use nl_model::{Expr, ExprBuilder, NlBuilder};
use std::alloc::Global;
use text_base::Front;

/// The expression of a constraint, and how many bytes its line and the LF are.
#[derive(Drop)]
pub struct FirstBody {
    con: u32,
    tree: Expr,
    len: usize,
}

// The expression that this head begins, of the line that a text begins with, after so many nodes of
// the file, where it is of a constraint, and the number 0.
fn zero_body(
    alloc: Global,
    builder: &NlBuilder,
    before: u32,
    head: Head,
    text: &[u8],
) -> Option<FirstBody>
    ensures { IfSome result (λ t. (head ≡ BodyHead t.con)
        × IsLeafTree builder.now before text.now t.len t.tree) }
{
    let Head::Body(con) = head else {
        return None;
    };
    let Some(first) = first_zero(text) else {
        return None;
    };
    let Ok(row) = read_next(first.leaf, builder, before) else {
        return None;
    };
    let NodeRow::Whole(node) = row else {
        return None;
    };
    let mut nodes = ExprBuilder::new(alloc);
    let Ok(()) = nodes.push(node) else {
        return None;
    };
    if nodes.wants() > 0 {
        return None;
    }
    Some(FirstBody {
        con,
        tree: nodes.finish(),
        len: first.len,
    })
}

impl BodyReader {
    // Takes a head, but for what it awaits.
    #[inline]
    fn pass_head(&mut self, head: Head, line: u32)
        requires given { keeps_pairs head ≡ false }
        requires owner { HasOwner self.old.places head }
        requires seen { IsSeenIn self.old.seen head }
        ensures { body_of self.new ≡ with_head_passed (body_of self.old) head line }
    {
        let Ok(()) = self.places.begin(self.alloc, head, line) else {
            unreachable!()
        };
        self.marks.clear();
        self.seen.add(head);
        self.name = None;
    }

    // The term of the line that a text begins with, where there is room for one more.
    fn only_term(&self, text: &[u8]) -> Option<FirstPair>
        ensures { IfSome result (λ p. IsNextTerm (body_of self.now) text.now p) }
    {
        let Some(first) = first_pair(text) else {
            return None;
        };
        let limit = self.builder.header().counts().n_var;
        if first.index >= limit || self.linear >= MOST_TERMS {
            return None;
        }
        Some(first)
    }

    // Begins the piece of a head.
    #[inline(always)]
    fn begin_alone(&mut self, head: Head, line: u32) -> Option<Front>
        requires { MayBegin (body_of self.old) head line }
        ensures { (text : List ℕ)
            → Begins (body_of self.old) head text line result (body_of self.new) }
    {
        // room first, so that nothing is half begun
        let Ok(()) = make_room(&mut self.builder, head) else {
            return None;
        };
        self.pass_head(head, line);
        self.current = begun_current(self.alloc, self.builder.header().counts(), head, line);
        Some(Front { len: 0, lines: 0 })
    }

    // Begins a piece of one term of a constraint, and takes the line that a text begins with where
    // that is this term.
    fn begin_term(&mut self, con: u32, text: &[u8], line: u32) -> Option<Front>
        requires may { MayBegin (body_of self.old) (TermsHead con 1) line }
        requires few { line + length text.now ≤ 2 ^ 31 }
        ensures { Begins (body_of self.old) (TermsHead con 1) text.now line result
            (body_of self.new) }
    {
        let head = Head::Terms(con, 1);
        let Some(first) = self.only_term(text) else {
            return self.begin_alone(head, line);
        };
        let (var, len) = (first.index, first.len);
        let Ok(()) = self.builder.term(con, var, first.value) else {
            return None;
        };
        count_use(&mut self.uses, head, var);
        self.linear += 1;
        self.pass_head(head, line);
        self.places.add_terms(head, line + 1, 1);
        Some(Front { len, lines: 1 })
    }

    /// Begins the piece of a head, and takes the line that a text begins with where that is the whole
    /// expression of a constraint, the number 0, or its only term.
    pub(crate) fn begin_piece(&mut self, head: Head, text: &[u8], line: u32) -> Option<Front>
        requires may { MayBegin (body_of self.old) head line }
        requires few { line + length text.now ≤ 2 ^ 31 }
        ensures { Begins (body_of self.old) head text.now line result (body_of self.new) }
    {
        if let Head::Terms(con, 1) = head {
            return self.begin_term(con, text, line);
        }
        let Some(first) = zero_body(self.alloc, &self.builder, self.nodes, head, text) else {
            return self.begin_alone(head, line);
        };
        let body = Head::Body(first.con);
        self.builder.body(first.con, first.tree);
        self.pass_head(body, line);
        self.places.add_nodes(body, line + 1, 1);
        self.nodes += 1;
        Some(Front {
            len: first.len,
            lines: 1,
        })
    }
}
