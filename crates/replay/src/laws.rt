//! Laws of the core, each the contract of a function that computes nothing.

ghost use Rattle.std.specs.Prelude.{ℕ, List};
ghost use Rattle.monomials.specs.Polynomials.{Each, IsPolynomial};
ghost use Rattle.word_model.specs.declared.records.Mode.{Mode};
ghost use Rattle.replay.specs.Worlds.{first_world, after_events, IsSound};
ghost use Rattle.word_model.specs.declared.events.Event.{Event};

use algebra::Algebra;
use gpoly::GPoly;

/// Whatever the list of events, the world that it comes to is sound: the entries and elements are the
/// first ones of the machine's journal, and a run that is over has its outcome; all Specs are good; each
/// job on the board is or was queued; the hands are those of the board, and no prefix is longer than the
/// basis.
pub fn every_interleaving(alg: &Algebra, gens: &[GPoly])
    requires sorted { Each (IsPolynomial alg.now.p alg.now.order) gens.now }
    ensures { (mode : Mode) (budget : ℕ) (events : List Event) →
        IsSound alg.now gens.now mode budget (after_events alg.now gens.now mode budget (first_world gens.now) events) }
{
    let _n = alg.n();
    let _gens = gens;
}
