// What is promised of the maps, of the numbers given back and of every call's outcome, as theorems over the definitions: specs/ has
// the words, proofs/ the proofs. There is no code.

#![tactic(auto)]
