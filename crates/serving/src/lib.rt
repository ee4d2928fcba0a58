// Networks and cores: a network sheet computes a design exactly when its tables and reading sets, as a core of cells, serve
// the design's conflicts within its budgets. What stands in specs/ is what the crates above cite; there is no code. Rests
// on network for what a network is, and on cells for what serving is.
#![tactic(auto)]
