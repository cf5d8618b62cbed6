// No code: theorems about the words and the values of each code, over the definitions of `formats`.
#![tactic(auto)]
