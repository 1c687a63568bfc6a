// Document 01's rule for the line and the cycle of a graph, what a line and a cycle mean, and the theorems that join the two: over any edges
// and any set of numbers below n. No functions: specs/ has the definitions, proofs/ the laws.
#![tactic(auto)]
