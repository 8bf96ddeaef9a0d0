//! The relations of a compiled check.
ghost use Rattle.std.specs.Prelude.{◌≡◌, IfOk};
ghost use Rattle.std.specs.Option.{unwrap_or};
ghost use Rattle.rela_engine.specs.Compilation.{RelateAlike};

use rela_labels::WideSet;
use rela_letter_image::LetterRelation;
use rela_trans::Transducer;
use std::alloc::{AllocError, Global};
use std::marker::Model;

/// A relation twice. Both transducers have the same pairs. Contracts see it as a `Twofold`, with both of
/// them.
#[derive(Drop)]
pub(crate) struct Twofold {
    /// The relation as it was built of its term.
    plain: Transducer<WideSet>,
    /// The relation made small; `None` where the plain one serves for many walks too.
    small: Option<Transducer<WideSet>>,
    /// The small one, laid out for images that are made letter by letter.
    letters: LetterRelation,
}

impl Model for Twofold {
    ghost use Rattle.std.specs.Option.{unwrap_or};
    ghost use Rattle.rela_engine.specs.Compilation as kept;

    ghost Value = { kept.Twofold };

    ghost view = { λ r. record { plain = r.plain; small = unwrap_or r.small r.plain } };

    ghost invariant = { λ r. kept.RelateAlike r.letters (unwrap_or r.small r.plain) };
}

impl Twofold {
    /// The relation as it was built, and made small. Where no small one is given, the other serves for it.
    /// The only error is want of memory.
    ///
    /// Time and space: those of a relation by letters.
    pub(crate) fn new(
        alloc: Global,
        plain: Transducer<WideSet>,
        small: Option<Transducer<WideSet>>,
    ) -> Result<Twofold, AllocError>
        ensures { IfOk result (λ made.
            made ≡ record { plain = plain; small = unwrap_or small plain }) }
    {
        let letters = by_letters(alloc, &plain, &small)?;
        Ok(Twofold {
            plain,
            small,
            letters,
        })
    }

    /// The relation as it was built of its term: each state stands for places of the term.
    pub(crate) fn plain(&self) -> &Transducer<WideSet>
        ensures { result.now ≡ self.now.plain }
    {
        &self.plain
    }

    /// The relation made small for many walks.
    pub(crate) fn small(&self) -> &Transducer<WideSet>
        ensures { result.now ≡ self.now.small }
    {
        match &self.small {
            Some(small) => small,
            None => &self.plain,
        }
    }

    /// The small relation, as images are made by it letter by letter.
    pub(crate) fn letters(&self) -> &LetterRelation
        ensures { RelateAlike result.now self.now.small }
    {
        &self.letters
    }
}

/// The relation by letters, of the small transducer, or of the plain one where there is none. The only
/// error is want of memory.
fn by_letters(
    alloc: Global,
    plain: &Transducer<WideSet>,
    small: &Option<Transducer<WideSet>>,
) -> Result<LetterRelation, AllocError>
    ensures { IfOk result (λ made. RelateAlike made (unwrap_or small.now plain.now)) }
{
    match small {
        Some(small) => LetterRelation::new(alloc, small),
        None => LetterRelation::new(alloc, plain),
    }
}

/// The relations that the paths before and after the change are seen through. Contracts see it as
/// `Relations`, with both of them.
#[derive(Drop)]
pub(crate) struct Relations {
    /// The relation that the paths before the change are seen through.
    before: Twofold,
    /// The relation that the paths after the change are seen through; `None` where no unit of the
    /// check asks for a change, so that `before` serves both sides.
    after: Option<Twofold>,
}

impl Model for Relations {
    ghost use Rattle.std.specs.Option.{unwrap_or};
    ghost use Rattle.rela_engine.specs.Compilation as kept;

    ghost Value = { kept.Relations };

    ghost view = { λ r. record { before = r.before; after = unwrap_or r.after r.before } };
}

impl Relations {
    /// These two relations. Where none is given for the paths after the change, the one before it serves
    /// both sides.
    pub(crate) fn new(before: Twofold, after: Option<Twofold>) -> Relations
        ensures { result ≡ record { before = before; after = unwrap_or after before } }
    {
        Relations { before, after }
    }

    /// The relation that the paths before the change are seen through.
    pub(crate) fn before(&self) -> &Twofold
        ensures { result.now ≡ self.now.before }
    {
        &self.before
    }

    /// The relation that the paths after the change are seen through.
    pub(crate) fn after(&self) -> &Twofold
        ensures { result.now ≡ self.now.after }
    {
        match &self.after {
            Some(after) => after,
            None => &self.before,
        }
    }
}
