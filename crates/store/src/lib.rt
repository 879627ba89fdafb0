// What objects that hold bytes, messages, words or blocks in lent memory have in common. All of it is in specs/ and proofs/.
#![tactic(auto)]
