// No code: document 01's demands 1 and 2, as theorems about the answer that `kiln::balance` gives. See specs/Demands.antt.
#![tactic(auto)]
