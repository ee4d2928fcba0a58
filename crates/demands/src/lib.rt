// What is proved of Map, Table and Check beyond their contracts: the three demands, the length of a permitted network, that
// the first network's tables are constant on global classes, and the sheets to try (section 16). Definitions and laws alone,
// in specs/. Rests on mapper for Map, on network for Check, and on design for Table.
#![tactic(auto)]
