// Laws of imports: the texts that PRISM's two files become are read back as the files have it, and pass a typed sheet's tests. No code.

#![tactic(auto)]
