//! Each automaton and each transducer is well formed. What is built passes through here, so that its
//! builder's contract can say so too.
ghost use Rattle.std.specs.Prelude.{◌≡◌};
ghost use Rattle.rela_nfa.specs.Automaton.{IsAutomaton};
ghost use Rattle.rela_trans.specs.Machine.{IsMachine};

use rela_labels::WideSet;
use rela_nfa::Nfa;
use rela_trans::Transducer;

/// The automaton as it is.
pub(crate) fn as_automaton(nfa: Nfa<WideSet>) -> Nfa<WideSet>
    ensures same { result ≡ nfa }
    ensures automaton { IsAutomaton result }
{
    let _ = nfa.states();
    nfa
}

/// The transducer as it is.
pub(crate) fn as_transducer(transducer: Transducer<WideSet>) -> Transducer<WideSet>
    ensures same { result ≡ transducer }
    ensures machine { IsMachine result }
{
    let _ = transducer.states();
    transducer
}
