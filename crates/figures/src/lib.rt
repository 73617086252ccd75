// What is promised of an acceptance sheet. No code stands here: the statements are in specs/, their proofs in proofs/.
#![tactic(auto)]
