//! The automaton of the words that two automata accept.
ghost use Rattle.std.specs.Prelude.{◌≡◌, ◌≢◌, ℕ, ◌<◌, ◌≤◌, ◌↔◌, List, Some, IfOk, IfErr, Contains, map, length, slice_get};
ghost use Rattle.std.specs.List.{All, range_with_len};
ghost use Rattle.rela_nfa.specs.Automaton.{states};
ghost use Rattle.rela_nfa.specs.Meeting.{next_pairs, pair_of, final_both, product_moves_at, IsMeet, IsProduct, AreReachedTogether};
ghost use Rattle.rela_nfa.specs.Runs.{Accepts};
ghost use Rattle.rela_pairs.specs.Exploration.{NumbersNext};
ghost use Rattle.rela_pairs.specs.Reachable.{AreDistinct, MoreThan, Reachable};
ghost use Rattle.rela_pairs.specs.declared.pair.Pair.{Pair};

use crate::edge_lists::EdgeLists;
use crate::followers::Meeting;
use crate::meeting::add_joint;
use crate::nfa::Nfa;
use rela_labels::LabelSet;
use rela_pairs::{BuildError, Explored, Pair, explore};
use std::alloc::{AllocError, Global};

/// Whether both states of the pair are final.
fn is_final_pair<L: LabelSet>(first: &Nfa<L>, second: &Nfa<L>, pair: Pair) -> bool
    requires left { pair.left < states first.now }
    requires right { pair.right < states second.now }
    ensures { result ≡ final_both first.now second.now pair }
{
    first.is_final(pair.left) && second.is_final(pair.right)
}

/// For each pair whether both states are final.
fn product_finals<L: LabelSet>(
    alloc: Global,
    first: &Nfa<L>,
    second: &Nfa<L>,
    pairs: &[Pair],
) -> Result<Vec<bool>, AllocError>
    requires { All (λ x. (x.left < states first.now) × (x.right < states second.now)) pairs.now }
    ensures { IfOk result (λ finals. finals.items
        ≡ map (final_both first.now second.now) pairs.now) }
{
    let mut finals = Vec::with_capacity(alloc, pairs.len())?;
    for pair in pairs {
        finals.push(is_final_pair(first, second, *pair))?;
    }
    Ok(finals)
}

/// For each pair the edges that the two take together, to the numbers of the pairs.
fn product_edges<L: LabelSet>(
    alloc: Global,
    first: &Nfa<L>,
    second: &Nfa<L>,
    explored: &Explored,
) -> Result<EdgeLists<L>, AllocError>
    requires letters { first.now.letters ≡ second.now.letters }
    requires pairs { All (λ x. (x.left < states first.now) × (x.right < states second.now))
        explored.now.pairs }
    requires one_list_each { length explored.now.targets ≡ length explored.now.pairs }
    requires targets { NumbersNext (next_pairs first.now second.now) explored.now }
    ensures { IfOk result (λ edges. edges ≡ map (product_moves_at first.now second.now explored.now)
        (range_with_len 0 (length explored.now.pairs))) }
{
    let pairs = explored.pairs();
    let mut edges = EdgeLists::with_capacity(alloc, pairs.len(), explored.follower_count())?;
    let mut leaving = Vec::new(alloc);
    for number in 0..pairs.len() {
        let targets = explored.targets(number);
        add_joint(alloc, &mut leaving, first, second, pairs[number], targets)?;
        edges.push(&mut leaving)?;
    }
    Ok(edges)
}

/// The automaton whose states are the pairs that were found, and whose edges are those that the two
/// take together. It begins at pair 0.
fn product<L: LabelSet>(
    alloc: Global,
    first: &Nfa<L>,
    second: &Nfa<L>,
    explored: &Explored,
) -> Result<Nfa<L>, AllocError>
    requires letters { first.now.letters ≡ second.now.letters }
    requires pairs { All (λ x. (x.left < states first.now) × (x.right < states second.now))
        explored.now.pairs }
    requires distinct { AreDistinct explored.now.pairs }
    requires first { slice_get explored.now.pairs 0
        ≡ Some (pair_of first.now.start second.now.start) }
    requires reachable { (x : Pair) → Contains explored.now.pairs x
        ↔ Reachable (next_pairs first.now second.now) (pair_of first.now.start second.now.start) x }
    requires one_list_each { length explored.now.targets ≡ length explored.now.pairs }
    requires targets { NumbersNext (next_pairs first.now second.now) explored.now }
    ensures { IfOk result (IsProduct first.now second.now explored.now) }
{
    let finals = product_finals(alloc, first, second, explored.pairs())?;
    let edges = product_edges(alloc, first, second, explored)?;
    Ok(Nfa {
        letters: first.letters,
        start: 0,
        finals,
        edges,
    })
}

impl<L: LabelSet> Nfa<L> {
    /// The words of both languages, by the product construction (M. Rabin and D. Scott, *Finite
    /// automata and their decision problems*, 1959). Each state is a pair of states that some word
    /// leads both automata to, and is reached by just the words that do. Time: for each such pair
    /// the product of the numbers of edges that leave its two states, each with a meet of two
    /// labels; space: linear in the pairs and the edges of the result.
    ///
    /// # Errors
    ///
    /// - `Limit` exactly where more than `limit` pairs are reached together; never for the greatest
    ///   limit.
    /// - `Memory` where there isn't memory for them.
    pub fn meet(&self, alloc: Global, other: &Nfa<L>, limit: usize) -> Result<Nfa<L>, BuildError>
        requires letters { self.now.letters ≡ other.now.letters }
        requires limit { 1 ≤ limit }
        ensures letters { IfOk result (λ nfa. nfa.letters ≡ self.now.letters) }
        ensures few { IfOk result (λ nfa. states nfa ≤ limit) }
        ensures pairs { IfOk result (λ nfa. (pairs : List Pair)
            × IsMeet self.now other.now pairs nfa) }
        ensures language { IfOk result (λ nfa. (w : List ℕ) → Accepts nfa w ↔
            (Accepts self.now w × Accepts other.now w)) }

        // The limit, exactly.
        ensures within { IfOk result (λ _.
            ¬ MoreThan limit (AreReachedTogether self.now other.now)) }
        ensures limit { IfErr result (λ e. e ≡ BuildError.Limit →
            MoreThan limit (AreReachedTogether self.now other.now)) }
        ensures greatest { limit ≡ usize.MAX → IfErr result (λ e. e ≢ BuildError.Limit) }
    {
        let meeting = Meeting {
            first: self,
            second: other,
        };
        let start = Pair {
            left: self.start(),
            right: other.start(),
        };
        let explored = explore(alloc, &meeting, start, limit)?;
        let nfa = product(alloc, self, other, &explored)?;
        Ok(nfa)
    }
}
