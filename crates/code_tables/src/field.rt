// The fields of the header of an .nl file.

/// A field of the header.
#[derive(Clone, Copy, PartialEq, Eq)]
pub struct Field {
    /// The number of its row in the table, which stands for its name.
    pub row: u32,
    /// Whether its line must have it.
    pub required: bool,
    /// Whether it must be 0.
    pub zero: bool,
}

/// A row of the table of fields: header line and place in it, both from 1.
#[derive(Clone, Copy, PartialEq, Eq)]
pub struct FieldRow {
    pub line: u32,
    pub place: u32,
    pub field: Field,
}
