//! The words of a command line, and by which of them a file can be opened.
#![tactic(auto)]

ghost use Rattle.std.specs.Prelude.{◌≡◌, ◌++◌, [], ◌∷◌, map, not, OnOk};
ghost use Rattle.std.specs.List.{list_any};
ghost use Rattle.std.specs.Str.Lossy.{utf8_lossy};
ghost use Rattle.std.specs.String.{string_bytes};
ghost use Rattle.edition_words.specs.Paths.{replacedOf, isOrSets};

use anyhow::Result;
use std::alloc::Global;

/// The words of the command line. One that isn't UTF-8 is held with marks of replacement, and no file can be opened by it.
#[derive(Drop)]
pub struct Words {
    pub all: Vec<String>,
    replaced: Vec<String>,
}

impl Words {
    /// None yet.
    pub fn new(alloc: Global) -> Words
        ensures all { result.all.items ≡ [] }
        ensures replaced { result.replaced.items ≡ [] }
    {
        Words {
            all: Vec::new(alloc),
            replaced: Vec::new(alloc),
        }
    }

    /// One more word: these bytes, each part that isn't UTF-8 replaced by a mark.
    pub fn add(&mut self, bytes: &[u8]) -> Result<()>
        ensures all { OnOk result (map string_bytes self.new.all.items ≡ map string_bytes self.old.all.items ++ (utf8_lossy bytes.now ∷ [])) }
        ensures replaced { OnOk result (map string_bytes self.new.replaced.items ≡ map string_bytes self.old.replaced.items ++ replacedOf (bytes.now ∷ [])) }
    {
        let alloc = *self.all.allocator();
        let word = String::from_utf8_lossy(alloc, bytes)?;
        if word.as_bytes() != bytes {
            self.replaced.push(word.clone()?)?;
        }
        self.all.push(word)?;
        Ok(())
    }

    /// Can a file be opened by this word, or by what stands behind an option's "=": was it UTF-8 as it was given?
    pub fn is_path(&self, word: &str) -> bool
        ensures { result ≡ not (list_any (λ r. isOrSets word.now (string_bytes r)) self.now.replaced.items) }
    {
        !self.replaced.iter().any(|r| is_or_sets(r.as_str(), word))
    }
}

// Is a word this path, or an option that sets it?
#[tactic(auto, unfolding(crate::specs::Paths::isOrSets))]
fn is_or_sets(word: &str, path: &str) -> bool
    ensures { result ≡ isOrSets path.now word.now }
{
    if word == path {
        return true;
    }
    match word.split_once('=') {
        Some((_, value)) => value == path,
        None => false,
    }
}
