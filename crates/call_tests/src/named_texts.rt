// Names from texts that come in pieces.

use name_files::{NameFault, NameList, NameReader};
use std::alloc::Global;
use text_base::Stop;

fn names_in(
    alloc: Global,
    used: u32,
    further: u32,
    text: &[u8],
    len: usize,
) -> Result<NameList, Stop<NameFault>> {
    let mut reader = NameReader::new(alloc, used, further)?;
    let mut rest = text;
    for _ in 0..text.len() {
        let (piece, more) = rest.split_at(rest.len().min(len));
        // The reader keeps an error, and answers it at the end.
        let _ = reader.feed(piece);
        rest = more;
    }
    reader.finish()
}

fn are_found(names: &NameList) -> bool {
    names.len() == 2
        && names.name(0) == b"Cap".as_slice()
        && names.name(1) == b"x0".as_slice()
        && names.find(b"x0") == Some(1)
        && names.find(b"Profit") == None
}

#[test]
fn names_come_in_pieces(rt: HostRuntime) {
    for len in [1, 2, 7, 1000] {
        let text = b"\n Cap \n\nx0\r\nProfit";
        let names = names_in(rt.alloc(), 2, 1, text, len).expect(&rt, "names");
        assert!(rt; are_found(&names));
        drop(names);
    }
}
