// Demand 3: what two ends of this code come to. Theorems over the definitions of KEXINIT alone; the contracts of
// `write_kex` and `read_kex` carry them to the code.
#![tactic(auto)]
