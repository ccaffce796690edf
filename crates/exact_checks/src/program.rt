// Linear programs by rows.
ghost use Rattle.std.specs.Prelude.{◌≡◌, length};
ghost use Rattle.exact_checks.specs.Lists.{AreSound, AreSound-prop};

use crate::form::{Body, Row};
use exact_numbers::Dec;
use linear_program::Kind;

/// A linear program by its rows.
#[derive(Drop)]
pub struct Program {
    pub rows: Vec<Row>,
    pub lower: Vec<Option<Dec>>,
    pub upper: Vec<Option<Dec>>,
    pub kinds: Vec<Kind>,
    pub objective: Body,
    pub maximise: bool,
    pub ghost uppers: { length upper.items ≡ length lower.items },
    pub ghost sound: { AreSound (length lower.items) rows.items objective } by { AreSound-prop (length lower.items) rows.items objective },
}
