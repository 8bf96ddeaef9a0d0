//! The edges of states, list after list.
ghost use Rattle.std.specs.Prelude.{◌≡◌, [], ◌∷◌, ◌++◌, IfOk, OnOk};

use crate::edge::LetterEdge;
use crate::lists::Lists;
use crate::nfa::LetterNfa;
use std::alloc::{AllocError, Global};
use std::marker::Model;

/// The edges of states, for an automaton that is made anew: those of a state are pushed, and then the
/// state is ended. Contracts see those of each state that has been ended, and those of the next one.
#[derive(Drop)]
pub struct EdgeLists {
    /// The edges of each state.
    pub(crate) lists: Lists<LetterEdge>,
}

impl Model for EdgeLists {
    ghost use Rattle.std.specs.Prelude.{List};
    ghost use Rattle.rela_letter_nfa.specs.declared.edge.LetterEdge.{LetterEdge};

    ghost Value = { List (List LetterEdge) × List LetterEdge };

    ghost view = { λ edges. edges.lists };
}

impl EdgeLists {
    /// No state, with room for as many states and edges as the automaton has. More can be pushed: then
    /// the room grows.
    pub fn with_room_for(alloc: Global, nfa: &LetterNfa) -> Result<EdgeLists, AllocError>
        ensures { IfOk result (λ edges. edges ≡ ([], [])) }
    {
        let lists = Lists::with_capacity(alloc, nfa.states(), nfa.edges.items())?;
        Ok(EdgeLists { lists })
    }

    /// The next state has this edge too.
    pub fn push(&mut self, edge: LetterEdge) -> Result<(), AllocError>
        ensures { OnOk result (self.new ≡ (self.old.0, self.old.1 ++ edge ∷ [])) }
    {
        self.lists.push(edge)
    }

    /// Ends the next state. Another one begins behind it.
    pub fn end_state(&mut self) -> Result<(), AllocError>
        ensures { OnOk result (self.new ≡ (self.old.0 ++ self.old.1 ∷ [], [])) }
    {
        self.lists.close()
    }
}
