// Every sentence of README.md and docs/THEOREMS.md, in specs/, each with its proof, in proofs/.
#![tactic(auto)]
