// What an .nl text says.
use crate::places::Places;
use nl_model::NlFile;

/// A file, and the line of each of its places.
#[derive(Drop)]
pub struct NlRead {
    pub file: NlFile,
    pub places: Places,
}
