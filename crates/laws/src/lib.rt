// Laws of the rules' definitions that code and theorems share; they are in proofs/.
#![tactic(auto)]
