//! The moves of all states, laid out by what they read.
ghost use Rattle.std.specs.Prelude.{◌≡◌, ◌<◌, [], ◌∷◌, ◌++◌, IfOk, OnOk, length, slice_index_or};
ghost use Rattle.rela_letter_image.specs.LetterMoves.{laid, none_laid, with_alone, with_letter, with_set};

use crate::letter_moves::{AloneMove, LetterMove, SetMove, StateMoves};
use rela_letter_nfa::Lists;
use std::alloc::{AllocError, Global};
use std::marker::Model;

/// The moves of all states, laid out by what they read. Those of one kind stand one behind the
/// other, state after state. The last state is open: moves can be put behind its others. Contracts
/// see the moves of each state that has been ended, and those of the open one.
#[derive(Drop)]
pub(crate) struct MoveLists {
    /// For each state those that read nothing.
    alone: Lists<AloneMove>,
    /// For each state those that read a letter of several, or of none.
    by_set: Lists<SetMove>,
    /// For each state those that read one letter alone.
    by_letter: Lists<LetterMove>,
}

impl Model for MoveLists {
    ghost use Rattle.std.specs.Prelude.{◌≡◌, List, length};
    ghost use Rattle.rela_letter_image.specs.LetterMoves.{Laid, laid_side_by_side};

    ghost Value = { List Laid × Laid };

    ghost view = { λ lists. (
      laid_side_by_side lists.alone.0 lists.by_set.0 lists.by_letter.0,
      record { alone = lists.alone.1; by_set = lists.by_set.1; by_letter = lists.by_letter.1 },
    ) };

    ghost invariant = { λ lists. (length lists.by_set.0 ≡ length lists.alone.0)
        × (length lists.by_letter.0 ≡ length lists.alone.0) };
}

impl MoveLists {
    /// No state yet, with room for so many, but for none of their moves.
    pub(crate) fn with_capacity(alloc: Global, states: usize) -> Result<MoveLists, AllocError>
        ensures { IfOk result (λ lists. lists ≡ ([], none_laid)) }
    {
        let alone = Lists::with_capacity(alloc, states, 0)?;
        let by_set = Lists::with_capacity(alloc, states, 0)?;
        let by_letter = Lists::with_capacity(alloc, states, 0)?;
        Ok(MoveLists {
            alone,
            by_set,
            by_letter,
        })
    }

    /// The open state has this move too.
    pub(crate) fn push_alone(&mut self, step: AloneMove) -> Result<(), AllocError>
        ensures { OnOk result (self.new ≡ (self.old.0, with_alone self.old.1 step)) }
    {
        self.alone.push(step)
    }

    /// The open state has this move too.
    pub(crate) fn push_by_set(&mut self, step: SetMove) -> Result<(), AllocError>
        ensures { OnOk result (self.new ≡ (self.old.0, with_set self.old.1 step)) }
    {
        self.by_set.push(step)
    }

    /// The open state has this move too.
    pub(crate) fn push_by_letter(&mut self, step: LetterMove) -> Result<(), AllocError>
        ensures { OnOk result (self.new ≡ (self.old.0, with_letter self.old.1 step)) }
    {
        self.by_letter.push(step)
    }

    /// Ends the open state. Another one without moves is open behind it.
    pub(crate) fn end_state(self) -> Result<MoveLists, AllocError>
        ensures { IfOk result (λ lists. lists ≡ (self.0 ++ self.1 ∷ [], none_laid)) }
    {
        let MoveLists {
            mut alone,
            mut by_set,
            mut by_letter,
        } = self;
        alone.close()?;
        by_set.close()?;
        by_letter.close()?;
        Ok(MoveLists {
            alone,
            by_set,
            by_letter,
        })
    }

    /// The moves of the state of this number. Time: constant.
    pub(crate) fn get(&self, q: usize) -> StateMoves<'_>
        requires { q < length self.now.0 }
        ensures { laid result ≡ slice_index_or self.now.0 q none_laid }
    {
        StateMoves {
            alone: self.alone.list(q),
            by_set: self.by_set.list(q),
            by_letter: self.by_letter.list(q),
        }
    }
}
