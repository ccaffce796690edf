// The lines of all nodes, terms and heads of a file.
ghost use Rattle.std.specs.Prelude.{◌≡◌, ◌<◌, ◌≤◌, ◌^◌, ◌+◌, ◌-◌, if◌then◌else◌, ◌++◌, ◌∷◌, [], length, replicate, get_or, slice_get, slice_set, true, false, Ok, Some, IsSome, IfOk, OnOk, option_copied};
ghost use Rattle.nl_lines.specs.Pieces.{keeps_pairs};
ghost use Rattle.nl_lines.specs.Saying.{changed, empty_lines, no_lines, owner_lines, place_line};
ghost use Rattle.nl_lines.specs.InsideLineRuns.{follows};
ghost use Rattle.nl_segments.specs.InsidePlaceSteps.{HasOwner, HasBegun, more_node_run, more_nodes, more_term_run, more_terms, nodes_follow, terms_follow, with_begun, with_node_line, with_node_run, with_term_line, with_term_run};
ghost use Rattle.std.specs.Option.{option_or};

use nl_lines::{Head, OwnerLines};
use nl_model::{At, Counts, Owner};
use std::alloc::{AllocError, Global};
use std::marker::Model;

/// The lines of the nodes, terms and heads of a file, counted from 1.
#[derive(Drop)]
pub struct Places {
    definitions: Vec<OwnerLines>,
    constraints: Vec<OwnerLines>,
    objectives: Vec<OwnerLines>,
}

impl Model for Places {
    ghost use Rattle.nl_lines.specs.Saying.{PlaceLines};

    ghost Value = { PlaceLines };

    ghost view = { λ p. record {
      definitions = p.definitions.items;
      constraints = p.constraints.items;
      objectives = p.objectives.items;
    } };
}

// So many owners with no lines.
fn owners(alloc: Global, count: usize) -> Result<Vec<OwnerLines>, AllocError>
    ensures { IfOk result (λ v. v.items ≡ replicate count no_lines) }
{
    let mut all = Vec::with_capacity(alloc, count)?;
    'filled: for _ in 0..count {
        all.push(OwnerLines::new(alloc))?;
    }
    Ok(all)
}

fn begin_tree(owners: &mut Vec<OwnerLines>, i: usize, line: u32)
    requires { i < length owners.old.items }
    ensures { owners.new.items
        ≡ changed (λ o. record o { head = Some line; nodes = [] }) owners.old.items i }
{
    let owner = &mut owners[i];
    owner.begin_tree(line);
}

fn begin_row(owners: &mut Vec<OwnerLines>, i: usize, line: u32)
    requires { i < length owners.old.items }
    ensures { owners.new.items
        ≡ changed (λ o. record o { head = option_or o.head (Some line); terms = [] })
        owners.old.items i }
{
    let owner = &mut owners[i];
    owner.begin_row(line);
}

fn begin_terms(owners: &mut Vec<OwnerLines>, i: usize)
    requires { i < length owners.old.items }
    ensures { owners.new.items ≡ changed (λ o. record o { terms = [] }) owners.old.items i }
{
    let owner = &mut owners[i];
    owner.begin_terms();
}

fn add_node(owners: &mut Vec<OwnerLines>, i: usize, line: u32) -> Result<(), AllocError>
    requires { i < length owners.old.items }
    ensures { OnOk result (owners.new.items ≡ changed (more_nodes line) owners.old.items i) }
{
    let owner = &mut owners[i];
    owner.add_node(line)
}

fn add_nodes(owners: &mut Vec<OwnerLines>, i: usize, line: u32, count: u32)
    requires owner { i < length owners.old.items }
    requires next { follows (get_or owners.old.items i no_lines).nodes line ≡ true }
    requires room { line + count ≤ 2 ^ 32 }
    ensures { owners.new.items ≡ changed (more_node_run line count) owners.old.items i }
{
    let owner = &mut owners[i];
    owner.add_nodes(line, count);
}

fn add_term(owners: &mut Vec<OwnerLines>, i: usize, line: u32) -> Result<(), AllocError>
    requires { i < length owners.old.items }
    ensures { OnOk result (owners.new.items ≡ changed (more_terms line) owners.old.items i) }
{
    let owner = &mut owners[i];
    owner.add_term(line)
}

fn add_terms(owners: &mut Vec<OwnerLines>, i: usize, line: u32, count: u32)
    requires owner { i < length owners.old.items }
    requires next { follows (get_or owners.old.items i no_lines).terms line ≡ true }
    requires room { line + count ≤ 2 ^ 32 }
    ensures { owners.new.items ≡ changed (more_term_run line count) owners.old.items i }
{
    let owner = &mut owners[i];
    owner.add_terms(line, count);
}

impl Places {
    /// No lines.
    pub(crate) fn new(alloc: Global, counts: &Counts) -> Result<Places, AllocError>
        ensures { IfOk result (λ p. p ≡ empty_lines counts.now) }
    {
        let constraints = owners(alloc, counts.n_con as usize)?;
        let objectives = owners(alloc, counts.n_obj as usize)?;
        Ok(Places {
            definitions: Vec::new(alloc),
            constraints,
            objectives,
        })
    }

    // A head of a defined variable.
    fn begin_definition(&mut self, alloc: Global, line: u32) -> Result<(), AllocError>
        ensures { OnOk result
            (self.new ≡ record self.old {
              definitions = self.old.definitions
                  ++ record { head = Some line; nodes = []; terms = [] } ∷ [];
            }) }
    {
        let mut lines = OwnerLines::new(alloc);
        lines.begin_tree(line);
        self.definitions.push(lines)?;
        Ok(())
    }

    /// Takes the line of a head.
    pub(crate) fn begin(&mut self, alloc: Global, head: Head, line: u32) -> Result<(), AllocError>
        requires { HasOwner self.old head }
        ensures ok { OnOk result (self.new ≡ with_begun self.old line head) }
        // Where nothing is kept after the head, no memory is wanted.
        ensures given { keeps_pairs head ≡ false → result ≡ Ok tt }
    {
        match head {
            Head::Body(i) => begin_tree(&mut self.constraints, i as usize, line),
            Head::Objective(k, _) => begin_tree(&mut self.objectives, k as usize, line),
            Head::Definition(_, _, _) => return self.begin_definition(alloc, line),
            Head::Terms(i, _) => begin_row(&mut self.constraints, i as usize, line),
            Head::Slopes(k, _) => begin_terms(&mut self.objectives, k as usize),
            _ => {}
        }
        Ok(())
    }

    // Adds the line of a node or a term of the defined variable that was given last.
    fn add_to_definition(&mut self, line: u32, is_node: bool) -> Result<(), AllocError>
        requires { 0 < length self.old.definitions }
        ensures { OnOk result
            (self.new ≡ record self.old {
              definitions = changed (if is_node then more_nodes line else more_terms line)
                  self.old.definitions (length self.old.definitions - 1);
            }) }
    {
        let last = self.definitions.len() - 1;
        if is_node {
            return add_node(&mut self.definitions, last, line);
        }
        add_term(&mut self.definitions, last, line)
    }

    /// Takes the line of a node of the last piece, which has this head.
    pub(crate) fn add_node(&mut self, head: Head, line: u32) -> Result<(), AllocError>
        requires owner { HasOwner self.old head }
        requires begun { HasBegun self.old head }
        ensures { OnOk result (self.new ≡ with_node_line self.old line head) }
    {
        match head {
            Head::Body(i) => add_node(&mut self.constraints, i as usize, line),
            Head::Objective(k, _) => add_node(&mut self.objectives, k as usize, line),
            Head::Definition(_, _, _) => self.add_to_definition(line, true),
            _ => Ok(()),
        }
    }

    /// Whether a line follows those of the nodes of the last piece, which has this head, where that
    /// is of a constraint or an objective.
    pub(crate) fn nodes_follow(&self, head: Head, line: u32) -> bool
        requires { HasOwner self.now head }
        ensures { result ≡ nodes_follow self.now head line }
    {
        match head {
            Head::Body(i) => self.constraints[i as usize].nodes_follow(line),
            Head::Objective(k, _) => self.objectives[k as usize].nodes_follow(line),
            _ => false,
        }
    }

    /// Takes the lines of so many nodes of the last piece, which has this head, from this line on.
    pub(crate) fn add_nodes(&mut self, head: Head, line: u32, count: u32)
        requires owner { HasOwner self.old head }
        requires next { nodes_follow self.old head line ≡ true }
        requires room { line + count ≤ 2 ^ 32 }
        ensures { self.new ≡ with_node_run self.old line count head }
    {
        match head {
            Head::Body(i) => add_nodes(&mut self.constraints, i as usize, line, count),
            Head::Objective(k, _) => add_nodes(&mut self.objectives, k as usize, line, count),
            _ => {}
        }
    }

    /// Takes the line of a term of the last piece, which has this head.
    pub(crate) fn add_term(&mut self, head: Head, line: u32) -> Result<(), AllocError>
        requires owner { HasOwner self.old head }
        requires begun { HasBegun self.old head }
        ensures { OnOk result (self.new ≡ with_term_line self.old line head) }
    {
        match head {
            Head::Definition(_, _, _) => self.add_to_definition(line, false),
            Head::Terms(i, _) => add_term(&mut self.constraints, i as usize, line),
            Head::Slopes(k, _) => add_term(&mut self.objectives, k as usize, line),
            _ => Ok(()),
        }
    }

    /// Whether a line follows those of the terms of the last piece, which has this head, where these
    /// are not kept.
    pub(crate) fn terms_follow(&self, head: Head, line: u32) -> bool
        requires { HasOwner self.now head }
        ensures { result ≡ terms_follow self.now head line }
    {
        match head {
            Head::Terms(i, _) => self.constraints[i as usize].terms_follow(line),
            Head::Slopes(k, _) => self.objectives[k as usize].terms_follow(line),
            _ => false,
        }
    }

    /// Takes the lines of so many terms of the last piece, which has this head, from this line on.
    pub(crate) fn add_terms(&mut self, head: Head, line: u32, count: u32)
        requires owner { HasOwner self.old head }
        requires next { terms_follow self.old head line ≡ true }
        requires room { line + count ≤ 2 ^ 32 }
        ensures { self.new ≡ with_term_run self.old line count head }
    {
        match head {
            Head::Terms(i, _) => add_terms(&mut self.constraints, i as usize, line, count),
            Head::Slopes(k, _) => add_terms(&mut self.objectives, k as usize, line, count),
            _ => {}
        }
    }

    // The lines of an owner.
    fn owner(&self, owner: Owner) -> Option<&OwnerLines>
        ensures { option_copied result ≡ owner_lines self.now owner }
    {
        match owner {
            Owner::Def(i) => self.definitions.get(i as usize),
            Owner::Con(i) => self.constraints.get(i as usize),
            Owner::Obj(k) => self.objectives.get(k as usize),
        }
    }

    /// The line of a place, where the file has it.
    #[tactic(auto, unfolding(nl_lines::specs::Saying::place_line))]
    pub(crate) fn line_at(&self, at: At) -> Option<u32>
        ensures { result ≡ place_line self.now at }
    {
        match at {
            At::Node(owner, i) => {
                let Some(lines) = self.owner(owner) else {
                    return None;
                };
                lines.node(i)
            }
            At::Term(owner, i) => {
                let Some(lines) = self.owner(owner) else {
                    return None;
                };
                lines.term(i)
            }
            At::Head(owner) => {
                let Some(lines) = self.owner(owner) else {
                    return None;
                };
                lines.head()
            }
        }
    }

    /// The line of a node, term or head that the file has.
    pub fn line(&self, at: At) -> u32
        requires { IsSome (place_line self.now at) }
        ensures { Some result ≡ place_line self.now at }
    {
        match self.line_at(at) {
            Some(line) => line,
            None => unreachable!(),
        }
    }
}
