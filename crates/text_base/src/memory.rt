// A desk in memory, which tells all its meanings.
ghost use Rattle.std.specs.Prelude.{◌≡◌, ◌+◌, ◌-◌, ◌<◌, ◌≤◌, ◌==◌, ◌++◌, ◌↔◌, false, if◌then◌else◌, IsNone, IfSome, length, take, drop, min, MatchOption, MatchResult, IfOk, OnOk, OnErr, All, [], ◌∷◌, None, Some, is_ok, not, refl, vec_len, vec_capacity};
ghost use Rattle.std.specs.List.{list_any, position};
ghost use Rattle.std.specs.Str.{bytes_eq};
ghost use Rattle.std.specs.String.{string_bytes};
ghost use Rattle.text_base.specs.Memory.{next_count, text_named, with_text, has_room, fitting, limited, empty_state, put_done, is_failing, start_succeeds, started, read_len, read_done, write_succeeds, write_done, tell_succeeds, tell_done};
ghost use Rattle.std.specs.Io.{ReadsAtMost, WritesAtMost};
ghost use Rattle.std.specs.Io.KnownBytes.{ReadConsumes, WriteAppends};
ghost use Rattle.text_base.specs.Desk.{HasCause, HasStartCause, OnlyInput, OnlyMessages, OnlyOutput, Starts};
ghost use Rattle.text_base.specs.InsideEntries.{entries, text_at, text_set};

use crate::{Desk, Failed};
use std::alloc::{AllocError, Global};
use std::marker::Model;

#[derive(Drop)]
struct Entry {
    name: String,
    text: Vec<u8>,
}

// The place of the first text of that name.
fn place_of(texts: &[Entry], name: &str) -> Option<usize>
    ensures { result ≡ position (λ e. bytes_eq (string_bytes e.name) name.now) texts.now }
{
    texts.iter().position(|entry| entry.name.as_str() == name)
}

// The place of the text of that name, and what stands there.
fn find(texts: &[Entry], name: &str) -> Option<usize>
    ensures { MatchOption result (text_named (entries texts.now) name.now ≡ None)
        (λ i. (i < length texts.now)
        × (text_named (entries texts.now) name.now ≡ Some (text_at (entries texts.now) i))) }
{
    place_of(texts, name)
}

// Puts a text in the place of another.
fn replace(texts: &mut Vec<Entry>, place: usize, text: Vec<u8>)
    requires { place < vec_len texts.old }
    ensures { entries texts.new.items ≡ text_set (entries texts.old.items) place text.items }
{
    texts[place].text = text;
}

// Adds a text.
fn add(texts: &mut Vec<Entry>, name: &str, text: Vec<u8>) -> Result<(), AllocError>
    ensures ok { OnOk result
        (entries texts.new.items ≡ entries texts.old.items ++ (name.now, text.items) ∷ []) }
    ensures err { OnErr result (texts.new.items ≡ texts.old.items) }
{
    let alloc = *texts.allocator();
    let name = String::from_str(alloc, name)?;
    texts.push(Entry { name, text })?;
    Ok(())
}

// Stores a text, in place of an older one of that name.
fn store(texts: &mut Vec<Entry>, name: &str, text: Vec<u8>) -> Result<(), AllocError>
    ensures ok { OnOk result
        (entries texts.new.items ≡ with_text (entries texts.old.items) name.now text.items) }
    ensures err { OnErr result (texts.new.items ≡ texts.old.items) }
{
    match place_of(texts, name) {
        Some(place) => {
            replace(texts, place, text);
            Ok(())
        }
        None => add(texts, name, text),
    }
}

// Numbers a call, and answers whether it is to fail.
fn take_number(calls: &mut u64, failing: &[u64]) -> bool
    ensures fails { result ≡ list_any (λ n. n == calls.old) failing.now }
    ensures next { calls.new ≡ next_count calls.old }
{
    let number = *calls;
    *calls = number.saturating_add(1);
    failing.contains(&number)
}

// Appends what of the piece the room takes. None where a piece that is not empty finds no room.
fn append_fitting(bytes: &mut Vec<u8>, room: usize, piece: &[u8]) -> Option<usize>
    requires within { vec_len bytes.old ≤ room }
    requires reserved { room ≤ vec_capacity bytes.old }
    ensures none { IsNone result ↔ (has_room room bytes.old.items piece.now ≡ false) }
    ensures some { IfSome result (λ n. n ≡ length (fitting room bytes.old.items piece.now)) }
    ensures bytes { bytes.new.items ≡ (if has_room room bytes.old.items piece.now
        then bytes.old.items ++ fitting room bytes.old.items piece.now else bytes.old.items) }
    ensures within { vec_len bytes.new ≤ room }
    ensures reserved { room ≤ vec_capacity bytes.new }
{
    let count = piece.len().min(room - bytes.len());
    if count == 0 && !piece.is_empty() {
        return None;
    }
    match bytes.extend_from_slice(&piece[..count]) {
        Ok(()) => Some(count),
        Err(_) => unreachable!(),
    }
}

// The text at that place, or nothing past the end.
fn text_in(texts: &[Entry], current: usize) -> &[u8]
    ensures { result.now ≡ text_at (entries texts.now) current }
{
    if current >= texts.len() {
        return &[];
    }
    let entry = &texts[current];
    &entry.text
}

// How many bytes a read gives: as many as the buffer, the text left and the next limit allow.
fn give(buf: &mut [u8], left: &[u8], cuts: &[usize], used: usize) -> usize
    requires { All (λ cut. 0 < cut) cuts.now }
    ensures count { result ≡ limited (drop used cuts.now) (min (length buf.old) (length left.now)) }
    ensures within { result ≤ length left.now }
    ensures room { result ≤ length buf.old }
    ensures bytes { take result buf.new ≡ take result left.now }
    ensures whole { buf.new ≡ take result left.now ++ drop result buf.old }
    ensures end { result ≡ 0 → 0 < length buf.old → left.now ≡ [] }
{
    let mut count = buf.len().min(left.len());
    if let Some(cut) = cuts.get(used) {
        count = count.min(*cut);
    }
    buf[..count].copy_from_slice(&left[..count]);
    count
}

// Goes on to the next limit, if there is one.
fn use_cut(cuts: &[usize], used: &mut usize)
    requires { used.old ≤ length cuts.now }
    ensures rest { drop used.new cuts.now ≡ drop 1 (drop used.old cuts.now) }
    ensures within { used.new ≤ length cuts.now }
{
    if *used < cuts.len() {
        *used += 1;
    }
}

/// A desk in memory. A call fails exactly where it was told to, where a start names no text that is
/// stored, or where a piece finds no room.
#[derive(Drop)]
pub struct MemoryDesk {
    texts: Vec<Entry>,
    current: usize,
    taken: usize,
    written: Vec<u8>,
    told: Vec<u8>,
    room: usize,
    input_faults: u64,
    output_faults: u64,
    message_faults: u64,
    calls: u64,
    failing: Vec<u64>,
    cuts: Vec<usize>,
    cuts_used: usize,
}

impl Model for MemoryDesk {
    ghost use Rattle.text_base.specs.Memory.{MemoryState};

    ghost Value = { MemoryState };

    ghost use Rattle.text_base.specs.InsideMemoryFields.{memory_state, IsMemoryDesk};

    ghost view = { memory_state };

    ghost invariant = { IsMemoryDesk };
}

impl MemoryDesk {
    /// A desk without texts, with room for so many bytes written and so many told.
    pub fn new(alloc: Global, room: usize) -> Result<MemoryDesk, AllocError>
        ensures { IfOk result (λ desk. desk ≡ empty_state room) }
    {
        Ok(MemoryDesk {
            texts: Vec::new(alloc),
            current: 0,
            taken: 0,
            written: Vec::with_capacity(alloc, room)?,
            told: Vec::with_capacity(alloc, room)?,
            room,
            input_faults: 0,
            output_faults: 0,
            message_faults: 0,
            calls: 0,
            failing: Vec::new(alloc),
            cuts: Vec::new(alloc),
            cuts_used: 0,
        })
    }

    /// Stores a text, in place of an older one of that name. Then there is no current text. Want of
    /// memory changes nothing.
    pub fn put(&mut self, name: &str, text: &[u8]) -> Result<(), AllocError>
        ensures ok { OnOk result (self.new ≡ put_done self.old name.now text.now) }
        ensures err { OnErr result (self.new ≡ self.old) }
    {
        let alloc = *self.texts.allocator();
        let text = Vec::from_slice(alloc, text)?;
        store(&mut self.texts, name, text)?;
        self.current = self.texts.len();
        self.taken = 0;
        Ok(())
    }

    /// Adds a call that is to fail. Calls of the trait are numbered from 0.
    pub fn fail(&mut self, call: u64) -> Result<(), AllocError>
        ensures ok { OnOk result
            (self.new ≡ record self.old { failing = self.old.failing ++ call ∷ [] }) }
        ensures err { OnErr result (self.new ≡ self.old) }
    {
        self.failing.push(call)?;
        Ok(())
    }

    /// Adds a limit for the next successful read that has none.
    pub fn cut(&mut self, most: usize) -> Result<(), AllocError>
        requires { 0 < most }
        ensures ok { OnOk result
            (self.new ≡ record self.old { cuts = self.old.cuts ++ most ∷ [] }) }
        ensures err { OnErr result (self.new ≡ self.old) }
    {
        self.cuts.push(most)?;
        Ok(())
    }

    /// The bytes written.
    pub fn written(&self) -> &[u8]
        ensures { result.now ≡ self.now.written }
    {
        &self.written
    }

    /// The bytes told.
    pub fn told(&self) -> &[u8]
        ensures { result.now ≡ self.now.told }
    {
        &self.told
    }
}

impl Desk for MemoryDesk {
    ghost use Rattle.text_base.specs.Memory.{meaning_of};

    ghost meaning = { meaning_of };

    ghost tells_left = { λ _ _. refl };

    fn start(&mut self, name: &str) -> Result<(), Failed>
        ensures succeeds { is_ok result ≡ start_succeeds self.old name.now }
        ensures exact { self.new ≡ started self.old name.now }
        ensures text { Starts (meaning_of self.old).texts name.now
            (meaning_of self.new).left result }
        ensures cause { HasStartCause (meaning_of self.old).texts name.now
            (meaning_of self.old).input_faults (meaning_of self.new).input_faults result }
        ensures rest { OnlyInput (meaning_of self.old) (meaning_of self.new) }
    {
        let fails = take_number(&mut self.calls, &self.failing);
        self.current = self.texts.len();
        self.taken = 0;
        if fails {
            self.input_faults = self.input_faults.saturating_add(1);
            return Err(Failed);
        }
        match find(&self.texts, name) {
            Some(place) => {
                self.current = place;
                Ok(())
            }
            None => Err(Failed),
        }
    }

    fn read(&mut self, buf: &mut [u8]) -> Result<usize, Failed>
        ensures succeeds { is_ok result ≡ not (is_failing self.old) }
        ensures count { IfOk result (λ n. n ≡ read_len self.old (length buf.old)) }
        ensures buffer { MatchResult result (λ n. buf.new ≡ take n self.old.left ++ drop n buf.old)
            (λ _. buf.new ≡ buf.old) }
        ensures exact { self.new ≡ read_done self.old (length buf.old) }
        ensures bound { ReadsAtMost result buf.new }
        ensures bytes { ReadConsumes (meaning_of self.old).left
            (meaning_of self.new).left result buf.new }
        ensures cause { HasCause (meaning_of self.old).input_faults
            (meaning_of self.new).input_faults result }
        ensures rest { OnlyInput (meaning_of self.old) (meaning_of self.new) }
    {
        if take_number(&mut self.calls, &self.failing) {
            self.input_faults = self.input_faults.saturating_add(1);
            return Err(Failed);
        }
        let text = text_in(&self.texts, self.current);
        let count = give(buf, &text[self.taken..], &self.cuts, self.cuts_used);
        self.taken += count;
        use_cut(&self.cuts, &mut self.cuts_used);
        Ok(count)
    }

    fn write(&mut self, piece: &[u8]) -> Result<usize, Failed>
        ensures succeeds { is_ok result ≡ write_succeeds self.old piece.now }
        ensures count { IfOk result
            (λ n. n ≡ length (fitting self.old.room self.old.written piece.now)) }
        ensures exact { self.new ≡ write_done self.old piece.now }
        ensures bound { WritesAtMost result piece.now }
        ensures some { IfOk result (λ n. 0 < length piece.now → 0 < n) }
        ensures bytes { WriteAppends (meaning_of self.old).written
            (meaning_of self.new).written result piece.now }
        ensures cause { HasCause (meaning_of self.old).output_faults
            (meaning_of self.new).output_faults result }
        ensures rest { OnlyOutput (meaning_of self.old) (meaning_of self.new) }
    {
        if !take_number(&mut self.calls, &self.failing) {
            if let Some(count) = append_fitting(&mut self.written, self.room, piece) {
                return Ok(count);
            }
        }
        self.output_faults = self.output_faults.saturating_add(1);
        Err(Failed)
    }

    fn tell(&mut self, piece: &[u8]) -> Result<usize, Failed>
        ensures succeeds { is_ok result ≡ tell_succeeds self.old piece.now }
        ensures count { IfOk result
            (λ n. n ≡ length (fitting self.old.room self.old.told piece.now)) }
        ensures exact { self.new ≡ tell_done self.old piece.now }
        ensures bound { WritesAtMost result piece.now }
        ensures some { IfOk result (λ n. 0 < length piece.now → 0 < n) }
        ensures bytes { WriteAppends (meaning_of self.old).told
            (meaning_of self.new).told result piece.now }
        ensures cause { HasCause (meaning_of self.old).message_faults
            (meaning_of self.new).message_faults result }
        ensures rest { OnlyMessages (meaning_of self.old) (meaning_of self.new) }
    {
        if !take_number(&mut self.calls, &self.failing) {
            if let Some(count) = append_fitting(&mut self.told, self.room, piece) {
                return Ok(count);
            }
        }
        self.message_faults = self.message_faults.saturating_add(1);
        Err(Failed)
    }
}
