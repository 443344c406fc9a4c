// No code: the theorems about schedules, rules and trees that stand on their own, in proofs/.
#![tactic(auto)]
