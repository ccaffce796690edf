// Linear programs.
ghost use Rattle.std.specs.Prelude.{◌≡◌, ◌<◌, length, slice_get, Some};

use crate::form::Form;
use crate::interval::Interval;
use crate::kind::Kind;
use std::marker::Model;

/// The parts of a linear program.
#[derive(Drop)]
pub struct LinearParts {
    pub bodies: Vec<Form>,
    pub objective: Form,
    pub number: u32,
    pub maximise: bool,
    pub sides: Vec<Interval>,
    pub bounds: Vec<Interval>,
    pub kinds: Vec<Kind>,
}

/// The forms of the bodies and of an objective, with the sides of constraints and the bounds and
/// kinds of variables.
#[derive(Drop)]
pub struct Linear {
    parts: LinearParts,
}

impl Model for Linear {
    ghost use Rattle.linear_program.specs.Programs.{LinearValue, IsLinear, parts_value};

    ghost Value = { LinearValue };

    ghost view = { λ l. parts_value l.parts };

    ghost invariant = { λ l. IsLinear (parts_value l.parts) };
}

impl Linear {
    ghost use Rattle.linear_program.specs.Programs.{IsLinear, parts_value};

    /// The linear program of these parts.
    pub fn of_parts(
        bodies: Vec<Form>,
        objective: Form,
        number: u32,
        maximise: bool,
        sides: Vec<Interval>,
        bounds: Vec<Interval>,
        kinds: Vec<Kind>,
    ) -> Linear
        requires { IsLinear
            (record {
              bodies = bodies.items;
              objective = objective;
              number = number;
              maximise = maximise;
              sides = sides.items;
              bounds = bounds.items;
              kinds = kinds.items;
            }) }
        ensures { result
            ≡ record {
              bodies = bodies.items;
              objective = objective;
              number = number;
              maximise = maximise;
              sides = sides.items;
              bounds = bounds.items;
              kinds = kinds.items;
            } }
    {
        let parts = LinearParts {
            bodies,
            objective,
            number,
            maximise,
            sides,
            bounds,
            kinds,
        };
        Linear { parts }
    }

    /// The parts, which are not copied.
    pub fn into_parts(self) -> LinearParts
        ensures value { self ≡ parts_value result }
        ensures linear { IsLinear self }
    {
        self.parts
    }

    /// The form of the body of a constraint.
    pub fn body(&self, con: u32) -> &Form
        requires { con < length self.now.bodies }
        ensures { slice_get self.now.bodies con ≡ Some result.now }
    {
        &self.parts.bodies[con as usize]
    }

    /// The forms of all bodies, by constraint.
    pub fn bodies(&self) -> &[Form]
        ensures bodies { result.now ≡ self.now.bodies }
        ensures folded { IsLinear self.now }
    {
        &self.parts.bodies
    }

    /// The interval of a constraint.
    pub fn side(&self, con: u32) -> Interval
        requires { con < length self.now.sides }
        ensures { slice_get self.now.sides con ≡ Some result }
    {
        self.parts.sides[con as usize]
    }

    /// The intervals of all constraints.
    pub fn sides(&self) -> &[Interval]
        ensures { result.now ≡ self.now.sides }
    {
        &self.parts.sides
    }

    /// The interval of a variable.
    pub fn bound(&self, var: u32) -> Interval
        requires { var < length self.now.bounds }
        ensures { slice_get self.now.bounds var ≡ Some result }
    {
        self.parts.bounds[var as usize]
    }

    /// The intervals of all variables.
    pub fn bounds(&self) -> &[Interval]
        ensures { result.now ≡ self.now.bounds }
    {
        &self.parts.bounds
    }

    /// The form of the objective.
    pub fn objective(&self) -> &Form
        ensures objective { result.now ≡ self.now.objective }
        ensures folded { IsLinear self.now }
    {
        &self.parts.objective
    }

    /// The number of the objective.
    pub fn objective_number(&self) -> u32
        ensures { result ≡ self.now.number }
    {
        self.parts.number
    }

    /// Whether the objective is maximised.
    pub fn maximise(&self) -> bool
        ensures { result ≡ self.now.maximise }
    {
        self.parts.maximise
    }

    /// The kind of a variable.
    pub fn kind(&self, var: u32) -> Kind
        requires { var < length self.now.kinds }
        ensures { slice_get self.now.kinds var ≡ Some result }
    {
        self.parts.kinds[var as usize]
    }

    /// The kinds of all variables.
    pub fn kinds(&self) -> &[Kind]
        ensures { result.now ≡ self.now.kinds }
    {
        &self.parts.kinds
    }

    /// The number of variables.
    pub fn n_var(&self) -> u32
        ensures { result ≡ length self.now.bounds }
    {
        self.parts.bounds.len() as u32
    }

    /// The number of constraints.
    pub fn n_con(&self) -> u32
        ensures { result ≡ length self.now.bodies }
    {
        self.parts.bodies.len() as u32
    }
}
