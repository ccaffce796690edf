// The kinds of suffixes.
ghost use Rattle.std.specs.Prelude.{◌≡◌};
ghost use Rattle.nl_model.specs.SuffixKinds.{has_same_objects, is_for_objectives, object_limit, objects_of, wants_whole};

/// The objects of a file that a suffix is for.
#[derive(Clone, Copy, PartialEq, Eq)]
pub enum Objects {
    Variables,
    Constraints,
    Objectives,
    Problem,
}

/// The objects that a suffix of this kind is for.
pub fn objects_of(kind: u8) -> Objects
    ensures { result ≡ objects_of kind }
{
    match kind % 4 {
        0 => Objects::Variables,
        1 => Objects::Constraints,
        2 => Objects::Objectives,
        _ => Objects::Problem,
    }
}

/// Whether a suffix of this kind is for the objectives.
pub fn is_for_objectives(kind: u8) -> bool
    ensures { result ≡ is_for_objectives kind }
{
    kind % 4 == 2
}

/// How many objects a suffix of this kind is for, among so many variables, constraints and
/// objectives.
pub fn object_limit(n_var: u32, n_con: u32, n_obj: u32, kind: u8) -> u32
    ensures { result ≡ object_limit n_var n_con n_obj kind }
{
    match objects_of(kind) {
        Objects::Variables => n_var,
        Objects::Constraints => n_con,
        Objects::Objectives => n_obj,
        Objects::Problem => 1,
    }
}

/// Whether two kinds are for the same objects.
pub fn has_same_objects(kind: u8, other: u8) -> bool
    ensures { result ≡ has_same_objects kind other }
{
    kind % 4 == other % 4
}

/// Whether the values of a suffix of this kind are whole.
pub fn wants_whole(kind: u8) -> bool
    ensures { result ≡ wants_whole kind }
{
    (kind / 4) % 2 == 0
}
