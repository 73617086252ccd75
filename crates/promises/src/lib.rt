// No code stands here. specs/ says what is promised of the definitions, and proofs/ proves it.
#![tactic(auto)]
