//! The names of assertions.

ghost use Rattle.std.specs.Prelude.{◌≡◌, ◌≢◌, ◌++◌, ◌∷◌, [], Err, Ok, IfErr, IsErrOf, OnOk};
ghost use Rattle.rela_lex.specs.declared.error.SpecError.TheVariants.{Memory};
ghost use Rattle.rela_claims.specs.Claims.{free_name};
ghost use Rattle.rela_claims.specs.Written.{names_taken};

use indexmap::IndexSet;
use rela_lex::SpecError;
use rela_names::Name;
use std::alloc::Global;

/// How many assertions a file may have.
const MAX_CLAIMS: usize = 200;

/// The names of earlier assertions, found by their hash.
#[derive(Drop)]
pub(crate) struct Names<'a> {
    /// The names, in the order in which they were taken.
    pub(crate) taken: IndexSet<&'a [u8]>,
}

impl<'a> Names<'a> {
    /// No names.
    pub(crate) fn new(alloc: Global) -> Names<'a>
        ensures { names_taken result ≡ [] }
    {
        Names {
            taken: IndexSet::new(alloc),
        }
    }

    /// Takes the name of one assertion more.
    ///
    /// # Errors
    ///
    /// `RepeatedName` where an earlier assertion has it; `TooLarge` where there are 200; `Memory`.
    pub(crate) fn take(&mut self, name: &'a Name, at: u32) -> Result<(), SpecError>
        ensures free { OnOk result (free_name (names_taken self.old) name.now at ≡ Ok name.now) }
        ensures taken { OnOk result (names_taken self.new
            ≡ names_taken self.old ++ name.now ∷ []) }
        ensures refused { IfErr result (λ e. e ≢ Memory →
            free_name (names_taken self.old) name.now at ≡ Err e) }
        ensures memory { IsErrOf result Memory →
            free_name (names_taken self.old) name.now at ≡ Ok name.now }
    {
        if self.taken.contains(name.as_bytes()) {
            return Err(SpecError::RepeatedName { at });
        }
        if self.taken.len() >= MAX_CLAIMS {
            return Err(SpecError::TooLarge { at });
        }
        self.taken.insert(name.as_bytes())?;
        Ok(())
    }
}
