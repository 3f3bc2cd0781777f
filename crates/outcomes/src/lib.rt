// What it means that a contract settles every outcome. There is no code here.
#![tactic(auto)]
