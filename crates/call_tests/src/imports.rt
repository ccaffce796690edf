// Programs that are imported.
ghost use Rattle.std.specs.Prelude.{◌≡◌, length};

use mps_import::{ImportFault, Imported, Order, import};
use mps_reader::MpsReader;
use nl_writer::write_nl;
use std::alloc::Global;
use std::process::Abort;
use text_base::Stop;

// What the import of the program of a text answers.
fn imported(rt: &impl Abort, alloc: Global, text: &str) -> Result<Imported, Stop<ImportFault>> {
    let mut reader = MpsReader::new(alloc).expect(rt, "memory");
    // The reader keeps an error, and answers it at the end.
    let _ = reader.feed(text.as_bytes());
    let mps = reader.finish().expect(rt, "a program");
    let answer = import(alloc, &mps);
    drop(mps);
    answer
}

fn is_order(order: &Order, wanted: &[u32]) -> bool {
    if order.len() != wanted.len() {
        return false;
    }
    for i in 0..wanted.len() {
        if order.get(i) != wanted[i] {
            return false;
        }
    }
    true
}

// An integer, a binary and a continuous column, and a row with a range.
const KINDS: &str =
    "OBJSENSE MAX\nROWS\n N C\n G R\nCOLUMNS\n M 'MARKER' 'INTORG'\n Y C 2 R 1\n M 'MARKER' 'INTEND'\n Z R 1 C 0\n X C 1\nRHS\n RHS C -5 R 1\nRANGES\n RNG R -3\nBOUNDS\n BV BND Z\nENDATA\n";

const KINDS_IMPORTED: &str =
    "g3 1 1 0\n3 1 1 1 0\n0 0\n0 0\n0 0 0\n0 0 0 1\n1 1 0 0 0\n2 2\n0 0\n0 0 0 0 0\nO0 1\nn5\nr\n0 1 4\nb\n2 0\n0 0 1\n2 0\nk2\n0\n1\nJ0 2\n1 1\n2 1\nG0 2\n0 1\n2 2\n";

// The columns stand in this order.
#[test]
fn columns_come_by_their_kinds(rt: HostRuntime) {
    let file = imported(&rt, rt.alloc(), KINDS).expect(&rt, "a file");
    let text = write_nl(rt.alloc(), &file.file).expect(&rt, "memory");
    assert!(rt; text.as_slice() == KINDS_IMPORTED.as_bytes());
    assert!(rt; is_order(&file.order, &[2, 1, 0]));
    drop(text);
    drop(file);
}
