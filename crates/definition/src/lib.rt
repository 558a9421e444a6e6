// The definition of the findings of a sheet, in specs/: a page for each function of scheduler/feasibility.rs.
#![tactic(auto)]
