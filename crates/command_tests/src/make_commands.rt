// The command make.
use crate::commands::command;
use std::alloc::Global;
use std::process::Abort;
use text_base::MemoryDesk;

// Whether the instance is summed up by a line that begins so.
fn sums_up(rt: &impl Abort, alloc: Global, seed: &str, size: &str, line: &[u8]) -> bool {
    let mut desk = MemoryDesk::new(alloc, 100).expect(rt, "memory");
    let ended = command(rt, alloc, &mut desk, &["make", seed, size]);
    let is_line = desk.written().starts_with(line) && desk.told().is_empty();
    drop(desk);
    ended == 0 && is_line
}

#[test]
fn sums_up_instances(rt: HostRuntime) {
    let cases: [(&str, &str, &[u8]); 2] = [
        ("1", "1", b"variables 1 rows 1 terms 1 bytes 168\n"),
        ("5", "8", b"variables 8 rows 8 terms 36 bytes "),
    ];
    for (seed, size, line) in cases {
        assert!(rt;
            sums_up(&rt, rt.alloc(), seed, size, line),
            "at {seed} {size}"
        );
    }
}

#[test]
fn sums_up_the_largest_size(rt: HostRuntime) {
    let line = b"variables 20000 rows 20000 terms 90000 bytes ";
    assert!(rt; sums_up(&rt, rt.alloc(), "7", "20000", line));
}
