//! The alternatives of a check's body, and the one that claims a word.
ghost use Rattle.std.specs.Prelude.{◌≡◌, ℕ, ◌≤◌, ◌↔◌, ◌++◌, IfOk, IfSome, IsTrue, MatchOption, OnOk, length, map};
ghost use Rattle.rela_translate.specs.Zones.{Zone};
ghost use Rattle.rela_branches.specs.Alternatives.{Claims, IsBlame, alternatives_of};

use crate::walk::Walk;
use rela_names::{Alphabet, Symbol};
use rela_translate::{Check, Core};
use std::alloc::{AllocError, Global};

/// The alternatives of a check's body, each lent from the check.
#[derive(Drop)]
pub struct Branches<'a> {
    /// The check whose body it is.
    pub check: &'a Check,
    /// How many locations the alphabet of the check's level has.
    pub locations: u32,
    /// The alternatives, from left to right.
    alternatives: Vec<&'a Core>,
    ghost whole: { map (λ body. body.now) alternatives.items ≡ alternatives_of check.now.body },
    ghost few: { length alternatives.items ≤ 20000 },
}

/// The alternatives of the check's body, under the alphabet of the check's level.
///
/// Time and space: linear in the body's alternatives.
///
/// # Errors
///
/// Only where memory is wanted.
pub fn branches_of<'a>(
    alloc: Global,
    check: &'a Check,
    alphabet: &Alphabet,
) -> Result<Branches<'a>, AllocError>
    ensures check { IfOk result (λ branches. branches.check.now ≡ check.now) }
    ensures locations { IfOk result (λ branches. branches.locations ≡ length alphabet.now) }
{
    let mut alternatives = Vec::new(alloc);
    push_alternatives(&mut alternatives, check.body())?;
    Ok(Branches {
        check,
        locations: alphabet.drop_symbol(),
        alternatives,
    })
}

/// Pushes the alternatives of the body, from left to right. The only error is want of memory.
fn push_alternatives<'a>(pushed: &mut Vec<&'a Core>, body: &'a Core) -> Result<(), AllocError>
    ensures { OnOk result (map (λ other. other.now) pushed.new.items
        ≡ map (λ other. other.now) pushed.old.items ++ alternatives_of body.now) }
{
    match body {
        Core::Unit { .. } | Core::Then(_, _) => {
            pushed.push(body)?;
            Ok(())
        }
        Core::Else(a, b) => {
            push_alternatives(pushed, a.get())?;
            push_alternatives(pushed, b.get())
        }
    }
}

impl<'a> Branches<'a> {
    /// The number, from 1, of the alternative that claims the word: the first one whose zone the
    /// word is in. `None` where it is in the zone of none.
    ///
    /// Each alternative up to that one is gone through once, beside the word, and no automaton is
    /// made. Time: linear in the nodes of their expressions times the word's length, where these
    /// have no repetition, meet or complement. Those three first ask where their parts lead from
    /// each place of the word, so a node takes time and space at most cubic in the word's length.
    ///
    /// # Errors
    ///
    /// Only where memory is wanted.
    pub fn claiming(&self, alloc: Global, word: &[Symbol]) -> Result<Option<u32>, AllocError>
        ensures few { IfOk result (λ number. IfSome number (λ k. k ≤ 20000)) }
        ensures blame { IfOk result (λ number. MatchOption number
            ((before : ℕ) → ¬ Claims self.now.check.now.classes self.now.locations
            self.now.check.now.body word.now before)
            (IsBlame self.now.check.now.classes self.now.locations self.now.check.now.body
            word.now)) }
    {
        for (before, alternative) in self.alternatives.iter().enumerate() {
            if self.claims(alloc, alternative, word)? {
                return Ok(Some(before as u32 + 1));
            }
        }
        Ok(None)
    }

    /// Whether the word is in the zone of the body.
    fn claims(&self, alloc: Global, body: &Core, word: &[Symbol]) -> Result<bool, AllocError>
        ensures { IfOk result (λ is. IsTrue is ↔ Zone self.now.check.now.classes
            self.now.locations body.now word.now) }
    {
        let walk = Walk {
            classes: self.check.classes(),
            locations: self.locations,
            word,
        };
        walk.is_in_zone(alloc, body)
    }
}
