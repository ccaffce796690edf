// Names as keys of a set, which finds them by their hashes.
ghost use Rattle.std.specs.Prelude.{◌≡◌, ◌≢◌, ◌+◌, ◌<◌, ◌≤◌, ◌++◌, ◌∷◌, [], None, All, AllPairs, IfOk, IfSome, OnErr, OnOk, length, map};
ghost use Rattle.std.specs.Str.{bytes_eq};
ghost use Rattle.indexmap.specs.IndexSet.{spare};
ghost use Rattle.mps_words.specs.InsideCodes.{name_of};
ghost use Rattle.text_base.specs.Names.{place_of};
ghost use Rattle.mps_words.specs.Names.{last_name};

use crate::codes::{Codes, Key, name_of};
use crate::front_words::after_space;
use indexmap::IndexSet;
use std::alloc::{AllocError, Global};

// What follows few bytes, where a text begins with them.
#[inline(always)]
fn after_few<'a>(text: &'a [u8], bytes: &[u8]) -> Option<&'a [u8]>
    ensures { IfSome result (λ rest. text.now ≡ bytes.now ++ rest.now) }
{
    let mut rest = text;
    let mut left = bytes;
    'bytes: while let [wanted, more @ ..] = left {
        let [byte, after @ ..] = rest else {
            return None;
        };
        if *byte != *wanted {
            return None;
        }
        left = more;
        rest = after;
    }
    Some(rest)
}

/// What follows some bytes, where a text begins with them.
#[inline]
pub fn after_bytes<'a>(text: &'a [u8], bytes: &[u8]) -> Option<&'a [u8]>
    ensures { IfSome result (λ rest. text.now ≡ bytes.now ++ rest.now) }
{
    if bytes.len() < 8 {
        return after_few(text, bytes);
    }
    if bytes.len() > text.len() {
        return None;
    }
    let (front, rest) = text.split_at(bytes.len());
    if front != bytes {
        return None;
    }
    Some(rest)
}

/// Whether this is the last name; the last of none is the empty one.
pub(crate) fn is_last(names: &IndexSet<Vec<u8>>, name: &[u8]) -> bool
    ensures { result ≡ bytes_eq name.now (last_name (map (λ k. k.items) names.now.keys)) }
{
    match names.last() {
        Some(last) => name == last.as_slice(),
        None => name.is_empty(),
    }
}

/// What follows the last name, where a text begins with that.
pub(crate) fn after_last<'a>(names: &IndexSet<Vec<u8>>, text: &'a [u8]) -> Option<&'a [u8]>
    ensures parts { IfSome result (λ rest. text.now
        ≡ last_name (map (λ k. k.items) names.now.keys) ++ rest.now) }
    ensures some { IfSome result (λ rest. 0 < length names.now.keys) }
{
    match names.last() {
        Some(last) => after_bytes(text, last.as_slice()),
        None => None,
    }
}

/// What follows the last name and a space, where a text begins with them.
pub(crate) fn after_last_word<'a>(names: &IndexSet<Vec<u8>>, text: &'a [u8]) -> Option<&'a [u8]>
    ensures parts { IfSome result (λ rest. text.now
        ≡ last_name (map (λ k. k.items) names.now.keys) ++ 32 ∷ rest.now) }
    ensures some { IfSome result (λ rest. 0 < length names.now.keys) }
{
    let Some(rest) = after_last(names, text) else {
        return None;
    };
    after_space(rest)
}

// Adds a name that is new to a set with room for it.
fn insert_new(names: &mut IndexSet<Vec<u8>>, name: Vec<u8>)
    requires new { place_of (map (λ k. k.items) names.old.keys) name.items ≡ None }
    requires room { 0 < spare names.old }
    ensures keys { map (λ k. k.items) names.new.keys
        ≡ map (λ k. k.items) names.old.keys ++ name.items ∷ [] }
    ensures room { spare names.old ≤ spare names.new + 1 }
{
    match names.insert(name) {
        Ok(_) => {}
        Err(_) => unreachable!(),
    }
}

/// Adds a new name and its code.
pub(crate) fn add_to(
    names: &mut IndexSet<Vec<u8>>,
    codes: &mut Codes,
    alloc: Global,
    key: Key,
    name: &[u8],
) -> Result<(), AllocError>
    requires new { place_of (map (λ k. k.items) names.old.keys) name.now ≡ None }
    requires fresh { 0 < key.code → All (λ c. c ≢ key.code) codes.old }
    ensures names { OnOk result (map (λ k. k.items) names.new.keys
        ≡ map (λ k. k.items) names.old.keys ++ name.now ∷ []) }
    ensures codes { OnOk result (codes.new ≡ codes.old ++ key.code ∷ []) }
    ensures same_names { OnErr result (names.new.keys ≡ names.old.keys) }
    ensures same_codes { OnErr result (codes.new ≡ codes.old) }
{
    let kept = Vec::from_slice(alloc, name)?;
    names.reserve(1)?;
    codes.add(key)?;
    insert_new(names, kept);
    Ok(())
}

// The set of the names of these codes.
fn set_of(alloc: Global, codes: &Codes) -> Result<IndexSet<Vec<u8>>, AllocError>
    requires { AllPairs (λ m n. m ≢ n) (map name_of codes.now) }
    ensures { IfOk result (λ s. map (λ k. k.items) s.keys ≡ map name_of codes.now) }
{
    let count = codes.len();
    let mut names = IndexSet::with_capacity(alloc, count)?;
    'codes: for place in 0..count {
        insert_new(&mut names, name_of(alloc, codes.code_at(place))?);
    }
    Ok(names)
}

/// The set of the names of these codes and a new one, whose code is added.
pub(crate) fn begun_with(
    codes: &mut Codes,
    alloc: Global,
    key: Key,
    name: &[u8],
) -> Result<IndexSet<Vec<u8>>, AllocError>
    requires apart { AllPairs (λ m n. m ≢ n) (map name_of codes.old) }
    requires new { place_of (map name_of codes.old) name.now ≡ None }
    requires fresh { 0 < key.code → All (λ c. c ≢ key.code) codes.old }
    ensures names { IfOk result (λ s. map (λ k. k.items) s.keys
        ≡ map name_of codes.old ++ name.now ∷ []) }
    ensures codes { OnOk result (codes.new ≡ codes.old ++ key.code ∷ []) }
    ensures same { OnErr result (codes.new ≡ codes.old) }
{
    let mut names = set_of(alloc, codes)?;
    add_to(&mut names, codes, alloc, key, name)?;
    Ok(names)
}
