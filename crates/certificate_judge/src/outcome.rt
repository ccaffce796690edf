// What a certificate comes to.
ghost use Rattle.std.specs.Prelude.{Some};
ghost use Rattle.exact_checks.specs.Reasons.{cause_text};
ghost use Rattle.certificate_judge.specs.Outcomes.{cause_of, leaf_fault_of, point_fault_of, ray_fault_of};
ghost use Rattle.certificate_judge.specs.Reasons.{failed_text, open_text, ray_text};

use exact_numbers::Frac;
use std::fmt;

/// The certificate holds, with the value of the objective that it has, if any; or the first cause
/// why it shows nothing.
#[derive(Clone, Copy, PartialEq, Eq)]
pub enum Outcome {
    Holds(Option<Frac>),
    Fails(Cause),
}

/// Why a certificate shows nothing: at the point, at a whole variable there, at the objective, at
/// the ray, or at the leaf of this number, counted from 0.
#[derive(Clone, Copy, PartialEq, Eq)]
pub enum Cause {
    Point(PointFault),
    NotWhole(u32),
    ObjectiveWide,
    Ray(RayFault),
    Leaf(u32, LeafFault),
}

/// The first row or variable that the point breaks, or at which a number is too wide.
#[derive(Clone, Copy, PartialEq, Eq)]
pub enum PointFault {
    RowWide(u32),
    RowBroken(u32),
    BoundWide(u32),
    BoundBroken(u32),
}

/// The first row or variable that the ray leads out of, or at which a number is too wide; or that
/// the objective does not get better along it.
#[derive(Clone, Copy, PartialEq, Eq)]
pub enum RayFault {
    RowWide(u32),
    RowBroken(u32),
    BoundBroken(u32),
    ObjectiveWide,
    NoBetter,
}

/// Why a leaf does not close: a row or a variable lacks the side that is needed, a number is too
/// wide, or the bound leaves a gap.
#[derive(Clone, Copy, PartialEq, Eq)]
pub enum LeafFault {
    RowSide(u32),
    BoundSide(u32),
    TooWide,
    Gap(Frac),
}

impl fmt::Display for Cause {
    ghost output = { λ cause. Some (failed_text (cause_of cause)) };

    fn fmt<W: fmt::Write>(&self, f: &mut fmt::Formatter<W>) -> fmt::Result {
        match self {
            Cause::Point(fault) => write!(f, "{fault}"),
            Cause::NotWhole(variable) => write!(f, "variable {variable} not whole"),
            Cause::ObjectiveWide => write!(f, "too wide at objective"),
            Cause::Ray(fault) => write!(f, "{fault}"),
            Cause::Leaf(leaf, fault) => write!(f, "leaf {leaf} {fault}"),
        }
    }
}

impl fmt::Display for PointFault {
    ghost output = { λ fault. Some (cause_text (point_fault_of fault)) };

    fn fmt<W: fmt::Write>(&self, f: &mut fmt::Formatter<W>) -> fmt::Result {
        match self {
            PointFault::RowWide(row) => write!(f, "too wide at row {row}"),
            PointFault::RowBroken(row) => write!(f, "row {row} broken"),
            PointFault::BoundWide(variable) => write!(f, "too wide at bound {variable}"),
            PointFault::BoundBroken(variable) => write!(f, "bound {variable} broken"),
        }
    }
}

impl fmt::Display for RayFault {
    ghost output = { λ fault. Some (ray_text (ray_fault_of fault)) };

    fn fmt<W: fmt::Write>(&self, f: &mut fmt::Formatter<W>) -> fmt::Result {
        match self {
            RayFault::RowWide(row) => write!(f, "too wide at ray row {row}"),
            RayFault::RowBroken(row) => write!(f, "ray row {row} broken"),
            RayFault::BoundBroken(variable) => write!(f, "ray bound {variable} broken"),
            RayFault::ObjectiveWide => write!(f, "too wide at ray objective"),
            RayFault::NoBetter => write!(f, "ray does not improve"),
        }
    }
}

impl fmt::Display for LeafFault {
    ghost output = { λ fault. Some (open_text (leaf_fault_of 0 fault)) };

    fn fmt<W: fmt::Write>(&self, f: &mut fmt::Formatter<W>) -> fmt::Result {
        match self {
            LeafFault::RowSide(row) => write!(f, "row {row} has no side"),
            LeafFault::BoundSide(variable) => write!(f, "bound {variable} has no side"),
            LeafFault::TooWide => write!(f, "too wide"),
            LeafFault::Gap(bound) => write!(f, "gap {bound}"),
        }
    }
}
