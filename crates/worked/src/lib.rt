// The worked examples of docs/SPECIFICATION.md, of the definitions: specs/ has the table, proofs/ the theorem that it holds. There is no code.

#![tactic(auto)]
