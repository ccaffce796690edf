// What names of an answer stand for.

/// The column or row that ties the objective, which no file has; or a thing of the file, by its
/// place.
#[derive(Clone, Copy)]
pub enum Target {
    Tied,
    Place(u32),
}
