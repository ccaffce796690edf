use crate::suffix::SolSuffix;
use nl_model::{Decs, Options};
use text_base::TextLines;

// The parts of a .sol file.
#[derive(Drop)]
pub(crate) struct SolParts {
    pub(crate) message: TextLines,
    pub(crate) options: Options,
    pub(crate) n_con: u32,
    pub(crate) duals: Decs,
    pub(crate) n_var: u32,
    pub(crate) primals: Decs,
    pub(crate) objno: Option<(i32, i32)>,
    pub(crate) suffixes: Vec<SolSuffix>,
}
