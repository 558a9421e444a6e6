// Demand 3: the findings of a sheet, and what two calls write, stay the same where every instant is moved alike. Its statement is in specs/.
#![tactic(auto)]
