// Office calendars: another folding of the same lines and letters in the other case give the same answer, and each row passes refusals 2 and 3 of a sheet. The statements are in specs/.
#![tactic(auto)]
