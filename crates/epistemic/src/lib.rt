//! Epistemic models, event models and product update, and cells of valuations as such models.

#![tactic(auto)]

ghost use Rattle.epistemic.specs.Claims.{MasksLawful};
ghost use Rattle.epistemic.specs.Laws.{CellsConnected, Duals, Invariance, TruthLocal, UpdateLawful};

/// What shows that the definitions are the usual ones, for models over any types of worlds and events: `or` and `M` are
/// the usual abbreviations, a product update of lawful models is lawful, the worlds of an information cell are all alike,
/// truth at a world depends on its information cell alone, and bisimulation keeps the truth of formulas. Cells of
/// valuations and acts are lawful models.
///
/// Its contract is the theorem; it answers nothing.
pub fn usual_models<V, W>()
    ensures duals { Duals W }
    ensures updates { UpdateLawful W V }
    ensures cells { CellsConnected W }
    ensures locality { TruthLocal W }
    ensures invariance { Invariance V W }
    ensures masks { MasksLawful }
{}
