//! Two automata as one.
ghost use Rattle.std.specs.Prelude.{◌≡◌, ℕ, ◌+◌, ◌<◌, ◌≤◌, ◌^◌, ◌++◌, ◌↔◌, None, OnOk, Contains, IsTrue, map};
ghost use Rattle.std.specs.List.{All};
ghost use Rattle.rela_letter_nfa.specs.Differences.{IsSought};
ghost use Rattle.rela_letter_nfa.specs.LetterAutomaton.{IsFinal, edges_of, silents_of, states};
ghost use Rattle.rela_letter_nfa.specs.Pair.{ArePaired, HasFinalFrom, IsSoughtSet, edge_behind, joined, starts_of};
ghost use Rattle.rela_letter_nfa.specs.Sets.{Adds};

use crate::difference::{Sought, Which};
use crate::edge::LetterEdge;
use crate::nfa::LetterNfa;
use crate::visited::Visited;
use std::alloc::AllocError;
use std::marker::Model;

/// Two automata as one, in which the states of the second stand behind those of the first. Nothing
/// is copied. Contracts see the two.
#[derive(Drop)]
pub(crate) struct Both<'a> {
    /// The first automaton.
    first: &'a LetterNfa,
    /// The second automaton.
    second: &'a LetterNfa,
    /// How many states the first automaton has.
    split: u32,
}

impl<'a> Model for Both<'a> {
    ghost use Rattle.std.specs.Prelude.{◌≡◌};
    ghost use Rattle.rela_letter_nfa.specs.LetterAutomaton.{states};
    ghost use Rattle.rela_letter_nfa.specs.Pair.{Pair, ArePaired};

    ghost Value = { Pair };

    ghost view = { λ both. record { first = both.first.now; second = both.second.now } };

    ghost invariant = { λ both. (both.split ≡ states both.first.now)
        × ArePaired (record { first = both.first.now; second = both.second.now }) };
}

impl<'a> Both<'a> {
    /// The two automata as one.
    pub(crate) fn new(first: &'a LetterNfa, second: &'a LetterNfa) -> Both<'a>
        ensures both { result ≡ record { first = first.now; second = second.now } }
        ensures paired { ArePaired result }
    {
        let split = first.states() as u32;
        let _ = second.states();
        Both {
            first,
            second,
            split,
        }
    }

    /// The number of states of both.
    pub(crate) fn states(&self) -> usize
        ensures states { result ≡ states (joined self.now) }
        ensures paired { ArePaired self.now }
    {
        self.first.states() + self.second.states()
    }

    /// Puts the two starts behind the other states, unless they are among them.
    pub(crate) fn insert_starts(&self, visited: &mut Visited) -> Result<(), AllocError>
        requires { visited.old.count ≡ states (joined self.now) }
        ensures adds { OnOk result (Adds (Contains (starts_of self.now)) visited.old.states
            visited.new.states) }
        ensures count { visited.new.count ≡ visited.old.count }
    {
        visited.insert(self.first.start())?;
        visited.insert(self.split + self.second.start())
    }

    /// Puts the states to which the state goes silently behind the others, unless they are among
    /// them.
    pub(crate) fn insert_silent(&self, q: u32, visited: &mut Visited) -> Result<(), AllocError>
        requires state { q < states (joined self.now) }
        requires count { visited.old.count ≡ states (joined self.now) }
        ensures adds { OnOk result (Adds (Contains (silents_of (joined self.now) q))
            visited.old.states visited.new.states) }
        ensures count { visited.new.count ≡ visited.old.count }
    {
        if q < self.split {
            insert_all(visited, self.first.silent(q), 0)
        } else {
            insert_all(visited, self.second.silent(q - self.split), self.split)
        }
    }

    /// Puts the edges that leave the state behind the others.
    pub(crate) fn push_edges(&self, q: u32, edges: &mut Vec<LetterEdge>) -> Result<(), AllocError>
        requires { q < states (joined self.now) }
        ensures { OnOk result (edges.new.items ≡ edges.old.items ++ edges_of (joined self.now) q) }
    {
        if q < self.split {
            push_all(edges, self.first.edges(q), 0)
        } else {
            push_all(edges, self.second.edges(q - self.split), self.split)
        }
    }

    /// Whether a word that reaches just these states is sought. Time: linear in the set.
    pub(crate) fn is_sought(&self, sought: Sought, set: &[u32]) -> bool
        ensures { IsTrue result ↔ IsSoughtSet sought self.now set.now }
    {
        let in_first = has_final(self.first, 0, set);
        let in_second = has_final(self.second, self.split, set);
        is_sought(sought, in_first, in_second)
    }

    /// Which automaton accepts the words that reach just these states: the first where it does.
    pub(crate) fn side_of(&self, set: &[u32]) -> Which
        ensures first { result ≡ Which.First → HasFinalFrom self.now.first 0 set.now }
        ensures second { result ≡ Which.Second → ¬ HasFinalFrom self.now.first 0 set.now }
    {
        if has_final(self.first, 0, set) {
            Which::First
        } else {
            Which::Second
        }
    }
}

/// Whether a word is sought, by whether the first automaton accepts it and whether the second does.
fn is_sought(sought: Sought, in_first: bool, in_second: bool) -> bool
    ensures { IsTrue result ↔ IsSought sought (IsTrue in_first) (IsTrue in_second) }
{
    match sought {
        Sought::FirstAlone => in_first && !in_second,
        Sought::EitherAlone => in_first != in_second,
    }
}

/// Whether a final state of the automaton is in the set, where so many states stand before its own.
/// Time: linear in the set.
fn has_final(a: &LetterNfa, before: u32, set: &[u32]) -> bool
    ensures { IsTrue result ↔ HasFinalFrom a.now before set.now }
{
    for q in set {
        if is_final_from(a, before, *q) {
            return true;
        }
    }
    false
}

/// Whether the state is a final one of the automaton, where so many states stand before its own.
fn is_final_from(a: &LetterNfa, before: u32, q: u32) -> bool
    ensures { IsTrue result ↔ ((p : ℕ) × (before + p ≡ q) × IsFinal a.now p) }
{
    q >= before && ((q - before) as usize) < a.states() && a.is_final(q - before)
}

/// Puts the states behind the others, unless they are among them, where so many states stand before
/// them.
fn insert_all(visited: &mut Visited, states: &[u32], before: u32) -> Result<(), AllocError>
    requires states { All (λ q. before + q < visited.old.count) states.now }
    requires few { visited.old.count ≤ 2 ^ 32 }
    ensures adds { OnOk result (Adds (Contains (map (λ q. before + q) states.now))
        visited.old.states visited.new.states) }
    ensures count { visited.new.count ≡ visited.old.count }
{
    for q in states {
        visited.insert(before + *q)?;
    }
    Ok(())
}

/// Puts the edges behind the others, where so many states stand before those to which they lead.
fn push_all(
    edges: &mut Vec<LetterEdge>,
    others: &[LetterEdge],
    before: u32,
) -> Result<(), AllocError>
    requires { All (λ edge. before + edge.to < 2 ^ 32) others.now }
    ensures { OnOk result (edges.new.items ≡ edges.old.items ++ map (edge_behind before)
        others.now) }
{
    for edge in others {
        edges.push(LetterEdge {
            letter: edge.letter,
            to: before + edge.to,
        })?;
    }
    Ok(())
}
