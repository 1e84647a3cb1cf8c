// The lines of a sheet have no code of their own: see specs/.
#![tactic(auto)]
