//! The claims of an assertion file.

ghost use Rattle.std.specs.Prelude.{◌≡◌, ◌≢◌, ◌≤◌, [], Err, Ok, IfErr, IfOk, map};
ghost use Rattle.std.specs.List.{All};
ghost use Rattle.rela_lex.specs.declared.error.SpecError.TheVariants.{Memory};
ghost use Rattle.rela_json.specs.Results.{try_map};
ghost use Rattle.rela_claims.specs.Claims.{ListsPathSymbols, NamesByClasses, claim_of, claimed_of, claims_of};
ghost use Rattle.rela_claims.specs.Classes.{resolved_class};
ghost use Rattle.rela_claims.specs.Sizes.{size_of_tree};
ghost use Rattle.rela_claims.specs.Terms.{mentions_in};
ghost use Rattle.rela_claims.specs.Written.{classes_of, mentioned, names_taken};

use crate::claim::Claim;
use crate::classes::Mention;
use crate::listing::sets;
use crate::looking::look_at_all;
use crate::mentions::mentions;
use crate::names::Names;
use crate::numbers::{Numbers, table};
use crate::size::look_at_size;
use crate::terms::tree;
use rela_lex::SpecError;
use rela_locations::Locations;
use rela_names::Level;
use rela_rirfile::{Assert, AssertFile};
use std::alloc::{AllocError, Global};

/// The claims of an assertion file over a network's locations, one for each assertion and in their
/// order. `all` is the class of all path symbols, a member is the class of the symbols that it
/// names, and every other word is the form of its name. The classes of a claim are those that its
/// assertion mentions, each once and in the order of their first mentions.
///
/// Time: expected linear in the file, and in the symbols that the classes of each claim list. Space:
/// that of the claims, and of one assertion's mentions. It goes as deep into the stack as the trees
/// and sets of the file are deep.
///
/// # Errors
///
/// The first fault, assertions in their order: `RepeatedName` at the name of one whose name an
/// earlier one has; `TooLarge` at the name of the 201st; from left to right `FinerLevel` and then
/// `UnknownLocation` at the name of a member; last, at the assertion's name, `TooLarge` where its
/// terms have more than 20,000 nodes together. `Memory`.
pub fn resolve(
    alloc: Global,
    file: &AssertFile,
    locations: &Locations,
) -> Result<Vec<Claim>, SpecError>
    ensures claims { IfOk result (λ claims.
        claims_of locations.now file.now ≡ Ok (map claimed_of claims.items)) }
    ensures refused { IfErr result (λ e. e ≢ Memory → claims_of locations.now file.now ≡ Err e) }

    // The classes list path symbols alone.
    ensures below { IfOk result (λ claims. All (ListsPathSymbols (record {
      network = locations.now;
      level = file.now.level;
    })) claims.items) }

    // The terms name symbols by classes alone.
    ensures plain { IfOk result (λ claims. All NamesByClasses claims.items) }
{
    let mut names = Names::new(alloc);
    resolve_each(alloc, file, locations, &mut names)
}

/// The claims of [`resolve`], where no name is taken yet.
fn resolve_each<'a>(
    alloc: Global,
    file: &'a AssertFile,
    locations: &Locations,
    names: &mut Names<'a>,
) -> Result<Vec<Claim>, SpecError>
    requires { names_taken names.old ≡ [] }
    ensures claims { IfOk result (λ claims.
        claims_of locations.now file.now ≡ Ok (map claimed_of claims.items)) }
    ensures refused { IfErr result (λ e. e ≢ Memory → claims_of locations.now file.now ≡ Err e) }
    ensures below { IfOk result (λ claims. All (ListsPathSymbols (record {
      network = locations.now;
      level = file.now.level;
    })) claims.items) }
    ensures plain { IfOk result (λ claims. All NamesByClasses claims.items) }
{
    let mut claims = Vec::new(alloc);
    for assertion in file.asserts.as_slice() {
        names.take(&assertion.name, assertion.at)?;
        claims.push(claim(alloc, locations, file.level, assertion)?)?;
    }
    Ok(claims)
}

/// The claim of an assertion.
///
/// # Errors
///
/// From left to right `FinerLevel` and then `UnknownLocation` at the name of a member; last, at the
/// assertion's name, `TooLarge` where its terms have more than 20,000 nodes together. `Memory`.
#[tactic(auto, unfolding(crate::specs::Claims::claim_of))]
fn claim(
    alloc: Global,
    locations: &Locations,
    level: Level,
    assertion: &Assert,
) -> Result<Claim, SpecError>
    ensures name { IfOk result (λ claim. claim.name ≡ assertion.now.name) }
    ensures claim { IfOk result (λ claim. claim_of (record {
      network = locations.now;
      level = level;
    }) assertion.now ≡ Ok (claimed_of claim)) }
    ensures refused { IfErr result (λ e. e ≢ Memory → claim_of (record {
      network = locations.now;
      level = level;
    }) assertion.now ≡ Err e) }
    ensures below { IfOk result (ListsPathSymbols (record {
      network = locations.now;
      level = level;
    })) }
    ensures plain { IfOk result NamesByClasses }
{
    let mentions = mentions(alloc, level, &assertion.tree)?;
    look_at_all(locations, level, mentions.as_slice())?;
    look_at_size(&assertion.tree, assertion.at)?;
    let mentions = mentions.as_slice();
    Ok(made(alloc, locations, level, assertion, mentions)?)
}

/// The claim of an assertion that mentions these classes, which all name some symbols, and whose
/// terms are small enough. The only error is want of memory.
fn made<'a>(
    alloc: Global,
    locations: &Locations,
    level: Level,
    assertion: &'a Assert,
    mentions: &[Mention<'a>],
) -> Result<Claim, AllocError>
    requires mentioned { map mentioned mentions.now ≡ mentions_in level assertion.now.tree }
    requires found { try_map (resolved_class (record {
      network = locations.now;
      level = level;
    })) (map mentioned mentions.now) ≡ Ok (classes_of mentions.now) }
    requires small { size_of_tree assertion.now.tree ≤ 20000 }
    ensures name { IfOk result (λ claim. claim.name ≡ assertion.now.name) }
    ensures claim { IfOk result (λ claim. claim_of (record {
      network = locations.now;
      level = level;
    }) assertion.now ≡ Ok (claimed_of claim)) }
    ensures below { IfOk result (ListsPathSymbols (record {
      network = locations.now;
      level = level;
    })) }
    ensures plain { IfOk result NamesByClasses }
{
    let name = assertion.name.copy(alloc)?;
    let table = table(alloc, mentions)?;
    let numbers = Numbers {
        level,
        table: &table,
    };
    let classes = sets(alloc, locations, level, &table)?;
    let tree = tree(alloc, &numbers, &assertion.tree)?;
    Ok(Claim {
        name,
        tree,
        classes,
    })
}
