// Rows that are chosen, as UPDATE and DELETE choose those that meet the conditions: definitions and laws, no function.
#![tactic(auto)]
