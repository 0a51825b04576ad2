// The three demands: no code, but what the calls of `engine` come to. The statements stand in specs/, their proofs in proofs/.
#![tactic(auto)]
