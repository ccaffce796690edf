// The words that lines of an answer begin with.
ghost use Rattle.std.specs.Prelude.{◌≡◌};
ghost use Rattle.answer_file.specs.Entries.{keyword_of};

/// What a line of an answer is about.
#[derive(Clone, Copy)]
pub enum Keyword {
    Status,
    Message,
    Sign,
    Objno,
    Col,
    Row,
    Suffix,
}

/// The keyword that a word is.
#[tactic(auto, unfolding(crate::specs::Entries::keyword_of))]
pub(crate) fn keyword_of(word: &[u8]) -> Option<Keyword>
    ensures { result ≡ keyword_of word.now }
{
    if word == b"status".as_slice() {
        return Some(Keyword::Status);
    }
    if word == b"message".as_slice() {
        return Some(Keyword::Message);
    }
    if word == b"sign".as_slice() {
        return Some(Keyword::Sign);
    }
    if word == b"objno".as_slice() {
        return Some(Keyword::Objno);
    }
    if word == b"col".as_slice() {
        return Some(Keyword::Col);
    }
    if word == b"row".as_slice() {
        return Some(Keyword::Row);
    }
    if word == b"suffix".as_slice() {
        return Some(Keyword::Suffix);
    }
    None
}
