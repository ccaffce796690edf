// An MPS text of fixed columns that comes in pieces.

use crate::programs::is_program;
use example_texts::mps_texts::{FIXED, FIXED_WRITTEN};
use fixed_mps::FixedReader;
use mps_model::Mps;
use mps_reader::MpsFault;
use std::alloc::Global;
use text_base::Stop;

fn read_in_pieces(alloc: Global, text: &[u8], len: usize) -> Result<Mps, Stop<MpsFault>> {
    let mut reader = FixedReader::new(alloc)?;
    let mut rest = text;
    for _ in 0..text.len() {
        let (piece, more) = rest.split_at(rest.len().min(len));
        // The reader keeps an error, and answers it at the end.
        let _ = reader.feed(piece);
        rest = more;
    }
    reader.finish()
}

#[test]
fn fixed_columns_in_pieces(rt: HostRuntime) {
    for len in [1, 2, 3, 7] {
        let mps = read_in_pieces(rt.alloc(), FIXED.as_bytes(), len).expect(&rt, "a program");
        assert!(rt; is_program(&rt, rt.alloc(), mps, FIXED_WRITTEN));
    }
}
