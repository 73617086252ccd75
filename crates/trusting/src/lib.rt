// What is promised of a watch over a whole trace. No code stands here: the statements are in specs/, their proofs in proofs/.
#![tactic(auto)]
