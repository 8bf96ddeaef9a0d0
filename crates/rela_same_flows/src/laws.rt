//! What graphs that no file can tell apart have in common. The law is a function that does nothing,
//! and its contract is the law.

ghost use Rattle.std.specs.Prelude.{ℕ, ◌↔◌, List};
ghost use Rattle.rela_graph.specs.Paths.{Arrives, Paths, Undelivered, locations};
ghost use Rattle.rela_graph.specs.Topology.{Topology};
ghost use Rattle.rela_names.specs.declared.level.Level.{Level};
ghost use Rattle.rela_same_flows.specs.SameFlows.{SameGraph};

/// Graphs with the same nodes and edges have the same paths at each level, and each of their nodes
/// is reached by the same words.
pub fn same_graphs_same_paths()
    ensures paths { (graph other : Topology) → SameGraph graph other →
        (level : Level) (names : List (List ℕ)) (word : List ℕ) →
        Paths graph level names word ↔ Paths other level names word }
    ensures undelivered { (graph other : Topology) → SameGraph graph other →
        (level : Level) (names : List (List ℕ)) (word : List ℕ) →
        Undelivered graph level names word ↔ Undelivered other level names word }
    ensures arrivals { (graph other : Topology) → SameGraph graph other →
        (level : Level) (node : ℕ) (word : List ℕ) →
        Arrives graph (locations graph level) node word
        ↔ Arrives other (locations other level) node word }
{}
