// What moves texts have in common that say the same chain, in specs/; there is no code.

#![tactic(auto)]
