// Instances, as they are written.
use bridge_tool::make_instance;
use nl_writer::write_nl;

const WRITTEN: &[u8] =
    b"g3 1 1 0\n1 1 1 0 0\n0 0\n0 0\n0 0 0\n0 0 0 1\n0 1 0 0 0\n1 1\n0 0\n1 0 0 0 0\nV1 1 0\n0 8\nn0\nC0\nv1\nO0 1\nn0\nr\n1 26\nb\n0 0 8\nk0\nJ0 1\n0 9\nG0 1\n0 46\n";

// The first row of the seed 1: 17 times its variable is at most 26.
#[test]
fn makes_an_instance(rt: HostRuntime) {
    let alloc = rt.alloc();
    let file = make_instance(alloc, 1, 1).expect(&rt, "memory");
    let text = write_nl(alloc, &file);
    drop(file);
    let text = text.expect(&rt, "memory");
    assert!(rt; text.as_slice() == WRITTEN);
    drop(text);
}
