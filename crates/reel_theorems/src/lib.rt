// No code: theorems about reels and their records, over the definitions that the contracts of `reel` and `read_reel` cite.
#![tactic(auto)]
