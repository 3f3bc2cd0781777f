// From the contracts of the public calls to the histories of rules. There is no code here.
#![tactic(auto)]
