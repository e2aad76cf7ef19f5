// Laws on numbers and lists that proofs of code lean on: products and quotients, sums, tables. No code.

#![tactic(auto)]
