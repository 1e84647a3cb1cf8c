// No code: how far the printed figures are from the unrounded values, as a theorem about the definitions. See specs/Demand.antt.
#![tactic(auto)]
