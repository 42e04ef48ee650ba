// Definitions and theorems alone: no code stands here. specs/ has the definitions; the theorems stand in proofs/, each with its words above it.
#![tactic(auto)]
