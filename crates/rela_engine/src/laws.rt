//! What the laws of terms say of the rows of flows. Each law is a function that only calls other laws,
//! and its contract is the law.
ghost use Rattle.std.specs.Prelude.{◌≡◌, ℕ, ◌+◌, List, length};
ghost use Rattle.rela_compare.specs.Comparison.{ReachPairsBefore};
ghost use Rattle.rela_labels.specs.Partition.{IsPartition};
ghost use Rattle.rela_nfa.specs.Automaton.{Automaton};
ghost use Rattle.rela_nfa.specs.Runs.{Accepts};
ghost use Rattle.rela_report.specs.declared.rows.Row.TheVariants.{Undecided};
ghost use Rattle.rela_report.specs.declared.rows.Side.TheVariants.{Before, After};
ghost use Rattle.rela_trans.specs.Machine.{Machine};
ghost use Rattle.rela_translate.specs.Verdict.{Offends};
ghost use Rattle.rela_blocks.specs.FlowName.{FlowName, flow_paths};
ghost use Rattle.rela_blocks.specs.RowBlocks.{symbols_of};
ghost use Rattle.rela_engine.specs.Compilation.{AreRelations, Compilation, MustPassLimit, PassesLimit, Relations};
ghost use Rattle.rela_engine.specs.FlowMachines.{flow_machines, flow_scenes, flow_settings};
ghost use Rattle.rela_engine.specs.Reading.{Realises};
ghost use Rattle.rela_engine.specs.RowOf.{MayBeOpen, MustBeOpen, RowOf, relation_of};
ghost use Rattle.rela_engine.specs.Seen.{AreSides, ImagePasses, KeepPlaces};

use rela_build::images_are_placed;
use rela_rir::{
    Machinery, Reading, Staging, built_terms_are_placed, complemented_parts_of_path_terms,
    complements_inside, licences_carry_over, reached_inside_path_terms, reached_states_are_places,
    tables_carry_over,
};
use rela_translate::{terms_mean_the_body, terms_name_no_paths};

/// The scenes of flows and the machines that are made in them, which only contracts name.
pub(crate) struct Flows;

impl Staging for Flows {
    ghost scene = { flow_scenes };
}

impl Reading for Flows {
    ghost setting = { flow_settings };
}

impl Machinery for Flows {
    ghost machines = { flow_machines };
}

/// Where the relations of a check pass the limit, each of its rows may be left open; where no
/// complement in them has to pass it, no row has to be.
pub(crate) fn relations_tell_of_open_rows()
    ensures missing { (c : Compilation) → PassesLimit c → (f : FlowName) →
        RowOf c.check c.locations (flow_paths f) c.states Undecided }
    ensures there { (c : Compilation) → ¬ MustPassLimit c → (f : FlowName) →
        ¬ MustBeOpen c.check c.locations (flow_paths f) c.states }
{
    terms_name_no_paths();
    reached_inside_path_terms::<Flows>();
    complemented_parts_of_path_terms();
    complements_inside::<Flows>();
    licences_carry_over::<Flows>();
}

/// A transducer of a check's relation as it is built has the pairs of the relation.
pub(crate) fn plain_relations_realise()
    ensures before { (c : Compilation) (relations : Relations) → AreRelations c relations →
        Realises c.blocks (relation_of Before c.check c.locations) relations.before.plain }
    ensures after { (c : Compilation) (relations : Relations) → AreRelations c relations →
        Realises c.blocks (relation_of After c.check c.locations) relations.after.plain }
{
    terms_mean_the_body::<Flows>();
}

/// Where the image of a flow's paths by plain automata passes the limit, or the comparison of the two
/// images does, the row may be left open.
pub(crate) fn plain_images_tell_of_open_rows()
    ensures before { (c : Compilation) (relations : Relations) → AreRelations c relations →
        (blocks : List ℕ) → IsPartition blocks → length blocks ≡ symbols_of c.check c.locations →
        (f : FlowName) → ImagePasses c.blocks blocks f.level f.names f.before
        relations.before.plain c.states → MayBeOpen c.check c.locations (flow_paths f) c.states }
    ensures after { (c : Compilation) (relations : Relations) → AreRelations c relations →
        (blocks : List ℕ) → IsPartition blocks → length blocks ≡ symbols_of c.check c.locations →
        (f : FlowName) → ImagePasses c.blocks blocks f.level f.names f.after
        relations.after.plain c.states → MayBeOpen c.check c.locations (flow_paths f) c.states }
    ensures both { (c : Compilation) (relations : Relations) → AreRelations c relations →
        (blocks : List ℕ) → length blocks ≡ symbols_of c.check c.locations → (f : FlowName)
        (pre_paths : Automaton) (pre_relation : Machine) (pre_image : Automaton)
        (post_paths : Automaton) (post_relation : Machine) (post_image : Automaton) →
        AreSides blocks c.check c.locations (flow_paths f).pre (flow_paths f).post
        pre_paths pre_relation pre_image post_paths post_relation post_image →
        KeepPlaces c.blocks blocks f.level f.names f.before relations.before.plain
        pre_paths pre_relation →
        KeepPlaces c.blocks blocks f.level f.names f.after relations.after.plain
        post_paths post_relation →
        ReachPairsBefore pre_image post_image
        (Offends c.check.at_most (Accepts pre_image) (Accepts post_image)) (c.states + 1) →
        MayBeOpen c.check c.locations (flow_paths f) c.states }
{
    terms_name_no_paths();
    tables_carry_over::<Flows>();
    built_terms_are_placed::<Flows>();
    images_are_placed::<Flows>();
    reached_states_are_places::<Flows>();
    reached_inside_path_terms::<Flows>();
}
