// No code: theorems about what `model` defines.
#![tactic(auto)]
