// When options and counts make a header.
ghost use Rattle.std.specs.Prelude.{◌≡◌, ◌≤◌, ◌^◌, false, IsTrue, MatchOption};
ghost use Rattle.nl_model.specs.HeaderRules.{AreCounts, are_counts, are_definitions_within, are_numbers, are_options, are_shared_within, are_sizes_within, are_whole_within, defined_count, has_no_refused, is_header, numbers_of};
ghost use Rattle.nl_model.specs.HeaderWords.{header_counts, header_options};

use crate::header::Header;
use crate::header_counts::Counts;
use crate::{Options, has_second_three};

// The most options of a header.
const MOST_OPTIONS: usize = 4;

// Numbers of header lines are below this one.
const NUMBERS_END: u32 = 0x8000_0000;

const MOST_VARIABLES: u32 = 0x10_0000;

const MOST_CONSTRAINTS: u32 = 0x10_0000;

const MOST_OBJECTIVES: u32 = 256;

// The most terms of all constraints together.
const MOST_TERMS: u32 = 0x40_0000;

const MOST_DEFINED: u64 = 0x10_0000;

fn are_options(options: &Options) -> bool
    ensures { result ≡ are_options options.now }
{
    let values = options.items();
    values.len() <= MOST_OPTIONS && !has_second_three(values)
}

// Whether each number is one of a header line.
fn are_numbers(c: &Counts) -> bool
    ensures { result ≡ are_numbers c.now }
{
    let numbers = [
        c.n_var,
        c.n_con,
        c.n_obj,
        c.n_ranges,
        c.n_eqns,
        c.n_lcon,
        c.nlc,
        c.nlo,
        c.nlnc,
        c.lnc,
        c.nlvc,
        c.nlvo,
        c.nlvb,
        c.nwv,
        c.nfunc,
        c.arith,
        c.flags,
        c.nbv,
        c.niv,
        c.nlvbi,
        c.nlvci,
        c.nlvoi,
        c.nzc,
        c.nzo,
        c.row_name_len,
        c.col_name_len,
        c.comb,
        c.comc,
        c.como,
        c.comc1,
        c.como1,
    ];
    numbers.iter().all(|n| *n < NUMBERS_END)
}

fn has_no_refused(c: &Counts) -> bool
    ensures { result ≡ has_no_refused c.now }
{
    c.n_lcon == 0 && c.nlnc == 0 && c.lnc == 0 && c.nwv == 0 && c.nfunc == 0
}

fn are_sizes_within(c: &Counts) -> bool
    ensures { result ≡ are_sizes_within c.now }
{
    c.n_var <= MOST_VARIABLES
        && c.n_con <= MOST_CONSTRAINTS
        && c.n_obj <= MOST_OBJECTIVES
        && c.nzc <= MOST_TERMS
}

/// Whether the variables that are nonlinear in constraints and in objectives are so in each.
pub fn are_shared_within(c: &Counts) -> bool
    ensures { result ≡ are_shared_within c.now }
{
    c.nlvb <= c.nlvc && c.nlvb <= c.nlvo
}

/// Whether each group has at least its whole variables, and the groups have at most all variables.
pub fn are_whole_within(c: &Counts) -> bool
    ensures { result ≡ are_whole_within c.now }
{
    let grouped = c.nlvc.max(c.nlvo) as u64 + c.nbv as u64 + c.niv as u64;
    c.nlvbi <= c.nlvb
        && c.nlvci <= c.nlvc.saturating_sub(c.nlvb)
        && c.nlvoi <= c.nlvo.saturating_sub(c.nlvc)
        && grouped <= c.n_var as u64
}

/// The number of defined variables.
pub fn defined_count(c: &Counts) -> u64
    ensures { result ≡ defined_count c.now }
{
    c.comb as u64 + c.comc as u64 + c.como as u64 + c.comc1 as u64 + c.como1 as u64
}

// Whether the counts keep the rules.
fn are_counts(c: &Counts) -> bool
    ensures { result ≡ are_counts c.now }
{
    are_numbers(c)
        && has_no_refused(c)
        && are_sizes_within(c)
        && are_shared_within(c)
        && are_whole_within(c)
        && defined_count(c) <= MOST_DEFINED
}

// Whether the options and the counts keep the rules.
#[tactic(auto, unfolding(crate::specs::HeaderRules::is_header))]
fn is_header(options: &Options, counts: &Counts) -> bool
    ensures { result ≡ is_header options.now counts.now }
{
    are_options(options) && are_counts(counts)
}

impl Header {
    /// The header of these options and counts. None where they break a rule.
    pub fn new(options: Options, counts: Counts) -> Option<Header>
        ensures { MatchOption result (is_header options counts ≡ false)
            (λ h. (header_options h ≡ options) × (header_counts h ≡ counts)) }
    {
        if !is_header(&options, &counts) {
            return None;
        }
        Some(Header { options, counts })
    }

    /// The options of the first line.
    pub fn options(&self) -> &Options
        ensures value { result.now ≡ header_options self.now }
    {
        &self.options
    }

    /// The counts of the other lines.
    pub fn counts(&self) -> &Counts
        ensures value { result.now ≡ header_counts self.now }
        ensures ruled { IsTrue (is_header (header_options self.now) (header_counts self.now)) }
        ensures facts { AreCounts (header_counts self.now) }
    {
        &self.counts
    }
}
