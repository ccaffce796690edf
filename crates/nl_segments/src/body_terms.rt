// Terms of a constraint or an objective, a line each, that are taken at once.
ghost use Rattle.std.specs.Prelude.{◌≡◌, ◌≤◌, ◌+◌, ◌^◌, ℕ, length, true, None, Some, IsSomeAnd, IfSome, if◌then◌else◌};
ghost use Rattle.nl_lines.specs.Pieces.{is_nothing};
ghost use Rattle.nl_segments.specs.Current.{Current as CurrentValue, current_awaits, less_lines};
ghost use Rattle.nl_segments.specs.Held.{Body, HoldsSome, body_of};
ghost use Rattle.nl_segments.specs.InsideLineSteps.{unless_complete};
ghost use Rattle.nl_segments.specs.InsideTermRuns.{HasBodyOf, HasTerms, IsBodyOf, TakesLines, with_counted, with_parts};

use crate::body::BodyReader;
use crate::body_pairs::{count_use, give_pair};
use crate::current::Current;
use nl_lines::{Head, MOST_TERMS, first_pair, is_nothing};
use nl_model::NlBuilder;
use text_base::{Front, Name};

// Gives the file the terms of lines at the front of a piece, at most so many, and counts their uses.
fn give_terms(
    builder: &mut NlBuilder,
    uses: &mut Vec<u32>,
    head: Head,
    most: u32,
    piece: &[u8],
) -> Front
    requires { HasBodyOf builder.old uses.old.items head most }
    ensures few { result.lines ≤ most }
    ensures takes { (b : Body) (cur : CurrentValue) (number : ℕ)
        → IsBodyOf builder.old uses.old.items head most b cur
        → TakesLines b piece.now number result
        (with_counted (with_parts b builder.new uses.new.items) cur number result.lines) }
{
    let limit = builder.header().counts().n_var;
    let mut front = Front { len: 0, lines: 0 };
    'lines: while front.lines < most {
        let Some(line) = first_pair(piece.split_at(front.len).1) else {
            return front;
        };
        if line.index >= limit {
            return front;
        }
        let index = line.index;
        let Ok(()) = give_pair(builder, head, (index, line.value)) else {
            return front;
        };
        count_use(uses, head, index);
        front = Front {
            len: front.len + line.len,
            lines: front.lines + 1,
        };
    }
    front
}

// Counts lines of the piece. A piece that is complete is not held any more.
fn pass_lines(current: &mut Option<Current>, name: &mut Option<Name>, count: u32)
    requires { IsSomeAnd current.old (λ c. count ≤ c.left) }
    ensures current { IfSome current.old
        (λ c. current.new ≡ unless_complete (less_lines c count)) }
    ensures name { IfSome current.old
        (λ c. name.new
        ≡ (if is_nothing (current_awaits (less_lines c count)) then None else name.old)) }
{
    let Some(held) = current else { unreachable!() };
    held.take_lines(count);
    if is_nothing(held.awaited()) {
        *current = None;
        *name = None;
    }
}

impl BodyReader {
    // The head of the last piece and how many of its terms may be taken at once from this line on.
    fn awaited_terms(&self, line: u32) -> Option<(Head, u32)>
        requires { HoldsSome (body_of self.now) }
        ensures { IfSome result (λ t. HasTerms (body_of self.now) t.0 t.1 line) }
    {
        let Some(current) = &self.current else {
            return None;
        };
        let head = current.head();
        if !self.places.terms_follow(head, line) {
            return None;
        }
        let most = current.left().min(MOST_TERMS - self.linear);
        if most == 0 {
            return None;
        }
        Some((head, most))
    }

    /// Takes terms of a constraint or an objective, a line each, at the front of a piece, of which
    /// the first line has this number.
    pub(crate) fn take_terms(&mut self, piece: &[u8], number: u32) -> Front
        requires held { HoldsSome (body_of self.old) }
        requires few { number + length piece.now ≤ 2 ^ 31 + 1 }
        ensures { TakesLines (body_of self.old) piece.now number result (body_of self.new) }
    {
        let Some((head, most)) = self.awaited_terms(number) else {
            return Front { len: 0, lines: 0 };
        };
        let front = give_terms(&mut self.builder, &mut self.uses, head, most, piece);
        self.linear += front.lines;
        self.places.add_terms(head, number, front.lines);
        pass_lines(&mut self.current, &mut self.name, front.lines);
        front
    }
}
