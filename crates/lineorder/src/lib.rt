// Byte order of printed networks: lines decide one by one, tables before nodes, and the digits of a node follow from what it
// reads. Definitions and laws alone, in specs/. Rests on order for byte order, on network for prints, and on serving for what
// a network that computes a design has in its tables.
#![tactic(auto)]
