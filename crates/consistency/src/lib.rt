// Consistency: which stored values are what their rules give, and that accepted edits keep it so at every node that they do not touch.
#![tactic(auto)]

ghost use Rattle.consistency.specs.Keeping.{EditsKeepConsistency};

use grammar::{Figure, Language};

// An accepted edit keeps the rules of every node that it does not touch. The function does nothing; its contract is the theorem.
// A refused edit leaves records and values as they were, so nothing is to be said of it.
pub fn edits_keep_consistency<L: Language>(language: &L)
    ensures { EditsKeepConsistency (L.grammar language.now) (L.rule language.now) L.Value.Figure.means L.Value.Figure.reads L.Value.Figure.nothing }
{}
