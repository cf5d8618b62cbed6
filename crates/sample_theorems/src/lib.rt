// No code: theorems about single samples, over the definitions that the contracts of `value` and `sample` cite.
#![tactic(auto)]
