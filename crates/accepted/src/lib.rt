// What the tests say of a job that passed them, in specs/; there is no code.

#![tactic(auto)]
