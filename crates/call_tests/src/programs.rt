// MPS texts that come in pieces.

use example_texts::mps_texts::{PAIRS, PAIRS_WRITTEN};
use mps_model::Mps;
use mps_reader::{MpsFault, MpsReader};
use mps_writer::write_mps;
use std::alloc::Global;
use std::process::Abort;
use text_base::Stop;

fn read_in_pieces(alloc: Global, text: &[u8], len: usize) -> Result<Mps, Stop<MpsFault>> {
    let mut reader = MpsReader::new(alloc)?;
    let mut rest = text;
    for _ in 0..text.len() {
        let (piece, more) = rest.split_at(rest.len().min(len));
        // The reader keeps an error, and answers it at the end.
        let _ = reader.feed(piece);
        rest = more;
    }
    reader.finish()
}

/// Whether the program is written so.
pub(crate) fn is_program(rt: &impl Abort, alloc: Global, mps: Mps, written: &str) -> bool {
    let text = write_mps(alloc, &mps).expect(rt, "memory");
    drop(mps);
    let is_wanted = text.as_slice() == written.as_bytes();
    drop(text);
    is_wanted
}

// The text, without its last line end, is read in pieces of this length and written so.
fn is_written_as(rt: &impl Abort, alloc: Global, text: &str, len: usize, written: &str) -> bool {
    let (text, _) = text.as_bytes().split_at(text.len().saturating_sub(1));
    let mps = read_in_pieces(alloc, text, len).expect(rt, "a program");
    is_program(rt, alloc, mps, written)
}

#[test]
fn a_program_in_pieces(rt: HostRuntime) {
    for len in [1, 2, 3, 7, 1000] {
        assert!(rt; is_written_as(&rt, rt.alloc(), PAIRS, len, PAIRS_WRITTEN));
    }
}

// The sense may stand in the section line.
const MARKED: &str =
    "OBJSENSE MAXIMIZE\nROWS\n N f\nCOLUMNS\n x f 1\n m 'MARKER' 'INTORG'\n y f 2\nRHS\nBOUNDS\n FR x\n LI y 3\nENDATA\n";

const MARKED_WRITTEN: &str =
    "OBJSENSE\n MAX\nROWS\n N f\nCOLUMNS\n x f 1\n M0 'MARKER' 'INTORG'\n y f 2\n M1 'MARKER' 'INTEND'\nRHS\nBOUNDS\n FR BND x\n LI BND y 3\nENDATA\n";

#[test]
fn columns_of_a_marked_stretch(rt: HostRuntime) {
    assert!(rt; is_written_as(&rt, rt.alloc(), MARKED, 4, MARKED_WRITTEN));
}
