// Theorems about the rules: what they promise of every table and every district. There is no code here.
#![tactic(auto)]
