// Chosen pools, computed: document 01's marked pools, and a pool for every number of the table. It has no functions.
#![tactic(auto)]
