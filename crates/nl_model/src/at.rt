// Places of a file.

/// What has a tree and terms: a defined variable by its position in the file's list, a constraint,
/// or an objective.
#[derive(Clone, Copy, Debug, PartialEq, Eq)]
pub enum Owner {
    Def(u32),
    Con(u32),
    Obj(u32),
}

/// A place: a node in prefix order, a term in file order, both counted from 0, or the head.
#[derive(Clone, Copy, Debug, PartialEq, Eq)]
pub enum At {
    Node(Owner, u32),
    Term(Owner, u32),
    Head(Owner),
}
