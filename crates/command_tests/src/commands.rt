// Commands over a desk in memory.
ghost use Rattle.std.specs.Prelude.{◌≡◌, ◌<◌};

use bridge_tool::bridge;
use std::alloc::Global;
use std::marker::Brand;
use std::process::Abort;
use text_base::{Blank, Desk, Ledger, MemoryDesk, Steps};

fn run<D: Desk, L: Ledger>(alloc: Global, words: &[String], desk: &mut D, blank: Blank) -> u8
    requires name { blank.name ≡ L.name }
    requires parts { blank.parts ≡ L.parts }
    requires some { 0 < blank.parts }
{
    let mut steps = Steps::<L>::new(blank);
    bridge(alloc, words, desk, &mut steps)
}

/// Works the command of these words.
pub(crate) fn command<D: Desk>(rt: &impl Abort, alloc: Global, desk: &mut D, words: &[&str]) -> u8 {
    let mut all = Vec::new(alloc);
    for word in words {
        all.push(String::from_str(alloc, *word).expect(rt, "memory"))
            .expect(rt, "memory");
    }
    run::<D, Brand>(alloc, &all, desk, Blank::new(1))
}

/// Puts these texts under their names, and works the command of these words.
pub(crate) fn work(
    rt: &impl Abort,
    alloc: Global,
    desk: &mut MemoryDesk,
    texts: &[(&str, &[u8])],
    words: &[&str],
) -> u8 {
    for (name, text) in texts {
        desk.put(*name, *text).expect(rt, "memory");
    }
    command(rt, alloc, desk, words)
}

// Whether this was written, or, from status 2 on, told, and nothing else.
fn is_out(desk: &MemoryDesk, status: u8, out: &str) -> bool {
    let out = out.as_bytes();
    if status < 2 {
        return desk.written() == out && desk.told().is_empty();
    }
    desk.written().is_empty() && desk.told() == out
}

// Whether a command over this desk ended with this status, and this was written, or, from status
// 2 on, told, and nothing else.
fn ended_so(desk: MemoryDesk, ended: u8, status: u8, out: &str) -> bool {
    let is_right = is_out(&desk, status, out);
    drop(desk);
    ended == status && is_right
}

/// The same of the command of these words over a desk with these texts.
pub(crate) fn comes_to(
    rt: &impl Abort,
    alloc: Global,
    texts: &[(&str, &[u8])],
    words: &[&str],
    status: u8,
    out: &str,
) -> bool {
    let mut desk = MemoryDesk::new(alloc, 4000).expect(rt, "memory");
    let ended = work(rt, alloc, &mut desk, texts, words);
    ended_so(desk, ended, status, out)
}

// Puts a text, of which each read gives at most so many bytes, and works the command.
fn work_in_pieces(
    rt: &impl Abort,
    alloc: Global,
    desk: &mut MemoryDesk,
    named: (&str, &[u8]),
    most: usize,
    words: &[&str],
) -> u8 {
    let (name, text) = named;
    desk.put(name, text).expect(rt, "memory");
    for _ in 0..text.len() {
        desk.cut(most.max(1)).expect(rt, "memory");
    }
    command(rt, alloc, desk, words)
}

/// Whether the command of these words writes this, where each read of the text of this name gives
/// at most so many bytes.
pub(crate) fn writes_in_pieces(
    rt: &impl Abort,
    alloc: Global,
    named: (&str, &[u8]),
    most: usize,
    words: &[&str],
    written: &str,
) -> bool {
    let mut desk = MemoryDesk::new(alloc, 4000).expect(rt, "memory");
    let ended = work_in_pieces(rt, alloc, &mut desk, named, most, words);
    ended_so(desk, ended, 0, written)
}

// Whether words are bad, by status and line.
fn are_bad(rt: &impl Abort, alloc: Global, words: &[&str]) -> bool {
    comes_to(
        rt,
        alloc,
        &[("a.nl", b"g3 1 1 0\n")],
        words,
        3,
        "bad words\n",
    )
}

#[test]
fn tells_bad_words(rt: HostRuntime) {
    let cases: [&[&str]; 5] = [
        &[],
        &["export"],
        &["exports", "a.nl"],
        &["export", "a.nl", "01"],
        &["export", "a.nl", "0", "0"],
    ];
    for words in cases {
        assert!(rt; are_bad(&rt, rt.alloc(), words));
    }
}
