// Short names as numbers, so that a name is found without its hash or a look at other names' bytes.
ghost use Rattle.std.specs.Prelude.{◌≡◌, ◌≢◌, ◌-◌, ◌<◌, ◌≤◌, ◌^◌, ◌/◌, ◌++◌, ◌∷◌, [], None, All, OnOk, OnErr, IfOk, IfSome, fold, length, take, get_or, slice_get};
ghost use Rattle.mps_words.specs.InsideCodes.{IsShort, bytes_code, code_of, is_short, name_of, with_byte};

use crate::runs::Run;
use crate::short_codes::ShortCodes;
use std::alloc::{AllocError, Global};
use std::marker::Model;

/// A name of one to so many bytes is short where the first is not 0.
const SHORT: usize = 16;

/// Each byte is 1.
pub(crate) const ONES: u64 = 0x0101_0101_0101_0101;

// Every other byte, the last one too.
const EVEN_BYTES: u64 = 0x00ff_00ff_00ff_00ff;

/// What a name is found by.
#[derive(Clone, Copy)]
pub struct Key {
    pub code: u128,
    // the number at the end of a short name; any is right
    number: usize,
}

/// The codes of names, in the order of the names.
#[derive(Drop)]
pub struct Codes {
    // those before the first long name
    short: ShortCodes,
    // those from it on
    behind: Vec<u128>,
    // how far places lie above the numbers at the ends of names, modulo 2^64; any is right
    shift: usize,
    // some of them, which are found without a look at them
    run: Run,
}

impl Model for Codes {
    ghost use Rattle.std.specs.Prelude.{List, ℕ, ◌++◌};
    ghost use Rattle.mps_words.specs.InsideRuns.{AreKept};

    ghost Value = { List ℕ };

    ghost view = { λ c. c.short ++ c.behind.items };

    ghost invariant = { λ c.
        AreKept c.run c.behind.items (c.short ++ c.behind.items) };
}

/// The last eight bytes of a short name.
#[inline(always)]
pub(crate) fn end_of(code: u128) -> u64 {
    (code & 0xffff_ffff_ffff_ffff) as u64
}

// The number that the digits among these bytes at the end of a name spell; any is right.
#[inline(always)]
fn number_of(end: u64) -> usize {
    let others = (end >> 6 | !(end >> 4)) & ONES;
    let behind = (others & others.wrapping_neg()).wrapping_sub(1);
    let digits = end & behind & (15 * ONES);
    let pairs = (digits & EVEN_BYTES).wrapping_add((digits >> 8 & EVEN_BYTES).wrapping_mul(10));
    let fours = (pairs & 0xffff_0000_ffff).wrapping_add(
        (pairs >> 16 & 0xffff_0000_ffff).wrapping_mul(100),
    );
    (fours & 0xffff_ffff).wrapping_add((fours >> 32).wrapping_mul(10_000)) as usize
}

// Whether a name is short.
#[inline]
fn is_short(name: &[u8]) -> bool
    ensures { result ≡ is_short name.now }
{
    match name {
        [first, ..] => *first > 0 && name.len() <= SHORT,
        [] => false,
    }
}

// The key of a short name.
fn short_key(name: &[u8]) -> Key
    requires { length name.now ≤ 16 }
    ensures { result.code ≡ bytes_code name.now }
{
    let mut code = 0;
    'bytes: for byte in name {
        code = code * 256 + *byte as u128;
    }
    Key {
        code,
        number: number_of(end_of(code)),
    }
}

impl Key {
    /// The key of a name. The code is 0 where it is not short.
    #[tactic(auto, unfolding(crate::specs::InsideCodes::code_of))]
    pub(crate) fn of(name: &[u8]) -> Key
        ensures { result.code ≡ code_of name.now }
    {
        if !is_short(name) {
            return Key { code: 0, number: 0 };
        }
        short_key(name)
    }
}

/// The short name of a code.
pub(crate) fn name_of(alloc: Global, code: u128) -> Result<Vec<u8>, AllocError>
    ensures { IfOk result (λ n. n.items ≡ name_of code) }
{
    let mut bytes = [0; SHORT];
    let mut place = SHORT;
    let mut left = code;
    'bytes: while place > 0 && left > 0 {
        place -= 1;
        bytes[place] = (left % 256) as u8;
        left /= 256;
    }
    Vec::from_slice(alloc, bytes.split_at(place).1)
}

/// What follows a short name of this code, where a text begins with that.
pub(crate) fn after_code(text: &[u8], code: u128) -> Option<&[u8]>
    ensures { IfSome result (λ rest. text.now ≡ name_of code ++ rest.now) }
{
    if text.is_empty() || text[0] == 0 {
        return None;
    }
    let mut found = 0;
    let mut passed = 0;
    'bytes: while found < code && passed < SHORT && passed < text.len() {
        found = found * 256 + text[passed] as u128;
        passed += 1;
    }
    if found != code {
        return None;
    }
    Some(text.split_at(passed).1)
}

// The first eight bytes of a text, the first one highest.
#[inline(always)]
fn head_of(text: &[u8]) -> Option<u64>
    ensures value { IfSome result (λ h. h ≡ fold with_byte 0 (take 8 text.now)) }
    ensures long { IfSome result (λ h. 8 ≤ length text.now) }
{
    match text {
        [a, b, c, d, e, f, g, h, ..] => {
            let high = ((*a as u64 * 256 + *b as u64) * 256 + *c as u64) * 256 + *d as u64;
            let low = ((*e as u64 * 256 + *f as u64) * 256 + *g as u64) * 256 + *h as u64;
            Some((high << 32) + low)
        }
        _ => None,
    }
}

// How many of eight bytes come before the first that is this one; any number up to eight is right.
#[inline(always)]
fn size_before(head: u64, end: u8) -> usize
    ensures { result ≤ 8 }
{
    let others = head ^ (end as u64).wrapping_mul(ONES);
    let low = (others & (127 * ONES)).wrapping_add(127 * ONES);
    (!(others | low) & (128 * ONES)).leading_zeros() as usize / 8
}

// The key of the name of nine to sixteen bytes that a text with this head begins with, before this
// byte, and what follows that. None of some texts.
#[inline]
fn first_wide(text: &[u8], head: u64, end: u8) -> Option<(Key, &[u8])>
    requires value { head ≡ fold with_byte 0 (take 8 text.now) }
    requires first { 0 < head / 2 ^ 56 }
    ensures { IfSome result (λ p. IsShort text.now end p.0.code p.1.now) }
{
    if text.len() < 8 {
        return None;
    }
    let Some(tail) = head_of(text.split_at(8).1) else {
        return None;
    };
    let count = 8 + size_before(tail, end);
    if count >= text.len() || text[count] != end {
        return None;
    }
    let both = head as u128 * 0x1_0000_0000_0000_0000 + tail as u128;
    let code = both >> (128 - 8 * count);
    let number = number_of(end_of(code));
    Some((Key { code, number }, text.split_at(count + 1).1))
}

/// The key of the short name that a text begins with, before this byte, and what follows that.
/// None of some texts.
#[inline(always)]
pub(crate) fn first_short(text: &[u8], end: u8) -> Option<(Key, &[u8])>
    ensures { IfSome result (λ p. IsShort text.now end p.0.code p.1.now) }
{
    let Some(head) = head_of(text) else {
        return None;
    };
    let size = size_before(head, end);
    if size == 0 || head >> 56 == 0 {
        return None;
    }
    if size >= text.len() || text[size] != end {
        return first_wide(text, head, end);
    }
    let code = head >> (64 - 8 * size);
    let number = number_of(code);
    let key = Key {
        code: code as u128,
        number,
    };
    Some((key, text.split_at(size + 1).1))
}

/// What follows a short name of this code and a space, where a text begins with them. None of some
/// texts.
#[inline(always)]
pub(crate) fn after_code_word(text: &[u8], code: u128) -> Option<&[u8]>
    ensures { IfSome result (λ rest. IsShort text.now 32 code rest.now) }
{
    let Some((key, rest)) = first_short(text, b' ') else {
        return None;
    };
    if key.code != code {
        return None;
    }
    Some(rest)
}

impl Codes {
    /// No codes.
    pub(crate) fn new(alloc: Global) -> Codes
        ensures { result ≡ [] }
    {
        Codes {
            short: ShortCodes::new(alloc),
            behind: Vec::new(alloc),
            shift: 0,
            run: Run::none(),
        }
    }

    /// How many codes there are.
    #[inline]
    pub(crate) fn len(&self) -> usize
        ensures { result ≡ length self.now }
    {
        self.short.len() + self.behind.len()
    }

    // The code at a place.
    #[inline(always)]
    fn get(&self, place: usize) -> Option<u128>
        ensures { result ≡ slice_get self.now place }
    {
        match self.short.get(place) {
            Some(code) => Some(code),
            None => self.behind.get(place - self.short.len()).copied(),
        }
    }

    /// The code at a place, 0 where there is none.
    pub(crate) fn code_at(&self, place: usize) -> u128
        ensures { result ≡ get_or self.now place 0 }
    {
        self.get(place).unwrap_or(0)
    }

    /// The last code.
    #[inline]
    pub(crate) fn last(&self) -> Option<u128>
        ensures { result ≡ slice_get self.now (length self.now - 1) }
    {
        self.get(self.len().saturating_sub(1))
    }

    // The place of a code, where the number at the end of the name leads to it.
    #[inline(always)]
    fn at_number(&self, key: Key) -> Option<usize>
        ensures within { IfSome result (λ p. p < length self.now) }
        ensures code { IfSome result (λ p. get_or self.now p 0 ≡ key.code) }
    {
        let place = key.number.wrapping_add(self.shift);
        let code = self.get(place)?;
        if code != key.code {
            return None;
        }
        Some(place)
    }

    /// The place of a short name's code, where the number at the end of the name leads to it.
    #[inline(always)]
    pub(crate) fn guess(&self, key: Key) -> Option<usize>
        ensures within { IfSome result (λ p. p < length self.now) }
        ensures code { IfSome result (λ p. get_or self.now p 0 ≡ key.code) }
        ensures short { IfSome result (λ p. 0 < key.code) }
    {
        if key.code == 0 {
            return None;
        }
        // the codes are few enough for the places of the run
        let _len = self.len();
        match self.run.find(key.code, key.number) {
            Some(place) => Some(place),
            None => self.at_number(key),
        }
    }

    /// The place of a code, where each is that of a short name.
    pub(crate) fn look_up(&self, code: u128) -> Option<usize>
        requires { All (λ c. 0 < c) self.now }
        ensures within { IfSome result (λ p. p < length self.now) }
        ensures found { IfSome result (λ p. get_or self.now p 0 ≡ code) }
        ensures absent { result ≡ None → All (λ c. c ≢ code) self.now }
    {
        self.short.find(code)
    }

    // Puts a code behind the others. Want of memory changes no code.
    fn push(&mut self, code: u128) -> Result<(), AllocError>
        requires { 0 < code → All (λ c. c ≢ code) self.old }
        ensures more { OnOk result (self.new ≡ self.old ++ code ∷ []) }
        ensures same { OnErr result (self.new ≡ self.old) }
    {
        if code > 0 && self.behind.is_empty() {
            self.short.insert(code)?;
            return Ok(());
        }
        self.behind.push(code)?;
        Ok(())
    }

    /// Adds the code of a new name. Want of memory changes no code.
    pub(crate) fn add(&mut self, key: Key) -> Result<(), AllocError>
        requires { 0 < key.code → All (λ c. c ≢ key.code) self.old }
        ensures more { OnOk result (self.new ≡ self.old ++ key.code ∷ []) }
        ensures same { OnErr result (self.new ≡ self.old) }
    {
        let place = self.len();
        let run = self.run.with_name(key.code, key.number, place);
        self.push(key.code)?;
        self.run = run;
        if key.number > 0 {
            self.shift = place.wrapping_sub(key.number);
        }
        Ok(())
    }
}
