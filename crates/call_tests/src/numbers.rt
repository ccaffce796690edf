// Numbers as texts.

use exact_numbers::{Dec, front_dec, plain_index, read_dec};
use nl_lines::{FirstLeaf, Leaf, first_leaf, first_pair, first_whole};

const LARGEST: i128 = 170141183460469231731687303715884105727;

#[test]
fn texts_are_read(rt: HostRuntime) {
    let cases: [(&[u8], i128, i16); 9] = [
        (b"-0", 0, 0),
        (b"+1.50e1", 15, 0),
        (b"1e38", 1, 38),
        (b"2e38", 2, 38),
        (b".5", 5, -1),
        (b"5.", 5, 0),
        (b"170141183460469231731687303715884105727", LARGEST, 0),
        (b"0e999999999", 0, 0),
        (b"1.1102230246251565e-32", 11102230246251565, -48),
    ];
    for (text, m, e) in cases {
        let number = read_dec(text).expect(&rt, "a number");
        assert!(rt; (number.m(), number.e()) == (m, e));
    }
}

// Fast ways, whose clauses let them give up.
#[test]
fn plain_words_are_taken(rt: HostRuntime) {
    let decimals: [(&[u8], Option<Dec>); 6] = [
        (b"-12.50", Dec::new(-125, -1)),
        (b"7", Dec::new(7, 0)),
        (b"1.5e-05", Dec::new(15, -6)),
        (b"-2E+006", Dec::new(-2, 6)),
        (b"1e0005", None),
        (b"1e", None),
    ];
    for (word, wanted) in decimals {
        assert!(rt; value_of(word) == wanted);
    }
    let index = plain_index(b"120 3.5").expect(&rt, "an index");
    assert!(rt; index.number == 120 && index.len == 3);
    assert!(rt; plain_index(b" 1").is_none());
    let front = front_dec(b"-4.50\n7").expect(&rt, "a decimal");
    assert!(rt; front.len == 5 && Some(front.value) == Dec::new(-45, -1));
    assert!(rt; front_dec(b".5").is_none());
}

// The decimal of a word that is read as a whole at the front.
fn value_of(word: &[u8]) -> Option<Dec> {
    match front_dec(word) {
        Some(front) if front.len == word.len() => Some(front.value),
        _ => None,
    }
}

// Lines at the front of a text, by ways whose clauses let them give up.
#[test]
fn plain_lines_are_taken(rt: HostRuntime) {
    let pair = first_pair(b"3 2.5\n").expect(&rt, "a pair");
    assert!(rt; pair.index == 3 && Some(pair.value) == Dec::new(25, -1) && pair.len == 6);
    let whole = first_whole(b"12\n").expect(&rt, "a number");
    assert!(rt; whole.number == 12 && whole.len == 3);
    let variable = number_of(first_leaf(b"v7\n"));
    let opcode = number_of(first_leaf(b"o2\n"));
    assert!(rt; variable == 7 && opcode == 2 && first_leaf(b"n4\n").is_some());
}

// The whole number of a leaf, or 0.
fn number_of(first: Option<FirstLeaf>) -> u32 {
    let Some(first) = first else {
        return 0;
    };
    match first.leaf {
        Leaf::Variable(number) => number,
        Leaf::Opcode(number) => number,
        _ => 0,
    }
}
