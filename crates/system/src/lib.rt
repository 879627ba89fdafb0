// What holds of threads and objects together, in specs/ and proofs/: one step for every operation, and theorems for every history.
#![tactic(auto)]
