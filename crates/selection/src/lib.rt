// The design with some of its outputs: what its sheet, its classes and its widths are. Definitions and laws alone, in specs/. Rests
// on subsets for sets of outputs, on sheet for designs, and on classes for columns.
#![tactic(auto)]
