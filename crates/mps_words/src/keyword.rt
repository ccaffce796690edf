// The sections of an MPS text.
ghost use Rattle.std.specs.Prelude.{◌≡◌};
ghost use Rattle.mps_words.specs.Sections.{keyword_of, later_keyword_of, number_of, stage_of, stage_after, first_stage, last_stage, has_begun, last_of, stage, may_come};

/// A section, by the word that begins it.
#[derive(Clone, Copy)]
pub enum Keyword {
    Name,
    Sense,
    Rows,
    Columns,
    Rhs,
    Ranges,
    Bounds,
    End,
}

/// The section that a word names.
#[tactic(auto, unfolding(crate::specs::Sections::keyword_of))]
pub fn keyword_of(word: &[u8]) -> Option<Keyword>
    ensures { result ≡ keyword_of word.now }
{
    if word == b"NAME".as_slice() {
        return Some(Keyword::Name);
    }
    if word == b"OBJSENSE".as_slice() {
        return Some(Keyword::Sense);
    }
    if word == b"ROWS".as_slice() {
        return Some(Keyword::Rows);
    }
    if word == b"COLUMNS".as_slice() {
        return Some(Keyword::Columns);
    }
    later_keyword_of(word)
}

// The sections after those of rows and columns.
#[tactic(auto, unfolding(crate::specs::Sections::later_keyword_of))]
fn later_keyword_of(word: &[u8]) -> Option<Keyword>
    ensures { result ≡ later_keyword_of word.now }
{
    if word == b"RHS".as_slice() {
        return Some(Keyword::Rhs);
    }
    if word == b"RANGES".as_slice() {
        return Some(Keyword::Ranges);
    }
    if word == b"BOUNDS".as_slice() {
        return Some(Keyword::Bounds);
    }
    if word == b"ENDATA".as_slice() {
        return Some(Keyword::End);
    }
    None
}

fn number_of(keyword: Keyword) -> u8
    ensures { result ≡ number_of keyword }
{
    match keyword {
        Keyword::Name => 0,
        Keyword::Sense => 1,
        Keyword::Rows => 2,
        Keyword::Columns => 3,
        Keyword::Rhs => 4,
        Keyword::Ranges => 5,
        Keyword::Bounds => 6,
        Keyword::End => 7,
    }
}

fn stage_of(keyword: Keyword) -> u8
    ensures { result ≡ stage_of keyword }
{
    match keyword {
        Keyword::Name | Keyword::Sense => 1,
        Keyword::Rows => 2,
        Keyword::Columns => 3,
        Keyword::Rhs | Keyword::Ranges | Keyword::Bounds => 4,
        Keyword::End => 5,
    }
}

// The first stage after which a section may come.
fn first_stage(keyword: Keyword) -> u8
    ensures { result ≡ first_stage keyword }
{
    match keyword {
        Keyword::Name | Keyword::Sense | Keyword::Rows => 0,
        Keyword::Columns => 2,
        _ => 3,
    }
}

// The last stage after which it may.
fn last_stage(keyword: Keyword) -> u8
    ensures { result ≡ last_stage keyword }
{
    match keyword {
        Keyword::Name | Keyword::Sense | Keyword::Rows => 1,
        Keyword::Columns => 2,
        _ => 4,
    }
}

// Whether a section of this name was begun.
fn has_begun(begun: &[Keyword], keyword: Keyword) -> bool
    ensures { result ≡ has_begun begun.now keyword }
{
    let wanted = number_of(keyword);
    begun.iter().any(|k| number_of(*k) == wanted)
}

/// The section that was begun last.
pub fn last_of(begun: &[Keyword]) -> Option<Keyword>
    ensures { result ≡ last_of begun.now }
{
    begun.last().copied()
}

/// How far the sections have come.
pub fn stage(begun: &[Keyword]) -> u8
    ensures { result ≡ stage begun.now }
{
    match last_of(begun) {
        Some(keyword) => stage_of(keyword),
        None => 0,
    }
}

/// Whether a section is in order after these, and comes for the first time.
#[tactic(auto, unfolding(crate::specs::Sections::may_come))]
pub fn may_come(begun: &[Keyword], keyword: Keyword) -> bool
    ensures { result ≡ may_come begun.now keyword }
{
    let reached = stage(begun);
    first_stage(keyword) <= reached && reached <= last_stage(keyword) && !has_begun(begun, keyword)
}
