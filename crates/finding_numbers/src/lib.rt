// Each finding of the definition bears the number of its check. There is no code here.
#![tactic(auto)]
