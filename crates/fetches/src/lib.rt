// Definitions and laws alone: what it means to read bytes of a memory, one after another.
#![tactic(auto)]
