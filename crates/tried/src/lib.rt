// P1 to P12 of document 01 as one computed table, beside it one on what document 01 adds and one on where a reader refuses
// (document 02, No. 6): no code.
#![tactic(auto)]
